// The frame of every packet: code, identifier, Length, data.
ghost use Rattle.std.specs.Prelude.{◌≡◌, ◌∷◌, ◌++◌, ◌-◌, ◌<◌, cond, not, eqb, ltb};
ghost use Rattle.octets.specs.Numbers.{to_be};
ghost use Rattle.octets.specs.Parts.{over_at};
ghost use Rattle.refusals.specs.Refusal.{told};
ghost use Rattle.packets.specs.Frame.{octet, number_at, length_of, bad_frame, bad_id};
ghost use Rattle.packets.specs.Sizes.{change_size};

use crate::sizes::HEAD_SIZE;
use refusals::Refusal;

// The octet at the place i, 0 where the packet does not reach it.
pub fn octet(packet: &[u8], i: usize) -> u8
    ensures { result ≡ octet i packet.now }
{
    if i < packet.len() { packet[i] } else { 0 }
}

// The number of two octets from the place i on, the most significant first.
pub(crate) fn number_at(packet: &[u8], i: usize) -> u16
    requires { i < change_size }
    ensures { result ≡ number_at i packet.now }
{
    octets::u16_from_be(octet(packet, i), octet(packet, i + 1))
}

// The Length field.
pub fn length(packet: &[u8]) -> usize
    ensures { result ≡ length_of packet.now }
{
    number_at(packet, 2) as usize
}

// The packet is under 4 octets, or its Length is under 4 or over what was passed.
pub fn is_bad_frame(packet: &[u8]) -> bool
    ensures { result ≡ bad_frame packet.now }
{
    let n = length(packet);
    packet.len() < HEAD_SIZE || (n < HEAD_SIZE || packet.len() < n)
}

// Its identifier is another one than this.
pub fn is_bad_id(id: u8, packet: &[u8]) -> bool
    ensures { result ≡ bad_id id packet.now }
{
    octet(packet, 1) != id
}

// What Length leaves behind the first `front` octets.
pub fn behind(packet: &[u8], front: usize) -> usize
    ensures { result ≡ length_of packet.now - front }
{
    let n = length(packet);
    if n < front { 0 } else { n - front }
}

// The body of a packet of one size, whose flags stand at a place and are at most `most`. Refusal 6:
// another size; 7: other flags.
pub(crate) fn admit_body(
    packet: &[u8],
    size: usize,
    flags_at: usize,
    most: u16,
) -> Result<(), Refusal>
    requires { flags_at < change_size }
    ensures { told result ≡ cond (not (eqb (length_of packet.now) size)) 6
        (cond (ltb most (number_at flags_at packet.now)) 7 0) }
{
    if length(packet) != size {
        return Err(Refusal::Size);
    }
    if most < number_at(packet, flags_at) {
        return Err(Refusal::Flags);
    }
    Ok(())
}

// Puts two pieces, one behind the other, at a place.
pub(crate) fn put_pair(out: &mut [u8], at: usize, first: &[u8], second: &[u8])
    requires { at < change_size }
    ensures { out.new ≡ over_at at (first.now ++ second.now) out.old }
{
    octets::copy_at(out, at, first);
    octets::copy_at(out, at + first.len(), second);
}

// The four octets before the data, for a packet of the given Length.
pub fn head(code: u8, id: u8, length: u16) -> [u8; HEAD_SIZE]
    ensures { result ≡ code ∷ id ∷ to_be 2 length }
{
    let n = octets::u16_to_be(length);
    [code, id, n[0], n[1]]
}
