// The Response packet: size of the value, LM response, NT response, flag, name.
ghost use Rattle.std.specs.Prelude.{◌≡◌, ◌+◌, ◌≤◌, length};
ghost use Rattle.refusals.specs.Refusal.{told};
ghost use Rattle.packets.specs.Frame.{written_over, written_as};
ghost use Rattle.packets.specs.Sizes.{name_offset, longest_name};
ghost use Rattle.packets.specs.Response.{bad_response_size, bad_response_flag, response_refusal};
ghost use Rattle.packets.specs.Response.{read_response, read_name, bad_name, short_for_response};
ghost use Rattle.packets.specs.Response.{response_packet, response_written, response_out};

use crate::Response;
use crate::codes::RESPONSE_CODE;
use crate::frames::{behind, head, length, octet};
use crate::sizes::{
    FLAG_OFFSET, HEAD_SIZE, LM_OFFSET, LONGEST_NAME, LONGEST_RESPONSE, NAME_OFFSET, NT_OFFSET,
    SHORTEST_RESPONSE, VALUE_SIZE,
};
use refusals::Refusal;

// The name has not 1 to 256 octets, by the Length, or the size is not that of the value.
pub fn is_bad_size(packet: &[u8]) -> bool
    ensures { result ≡ bad_response_size packet.now }
{
    let n = length(packet);
    let size = octet(packet, HEAD_SIZE);
    n < SHORTEST_RESPONSE || (LONGEST_RESPONSE < n || size != VALUE_SIZE as u8)
}

pub fn is_bad_flag(packet: &[u8]) -> bool
    ensures { result ≡ bad_response_flag packet.now }
{
    1 < octet(packet, FLAG_OFFSET)
}

// A packet whose frame is good and whose code is 2. Refusal 6: its size; 7: its flag.
#[tactic(auto, unfolding(crate::specs::Response::response_refusal))]
pub fn admit_response(packet: &[u8]) -> Result<(), Refusal>
    ensures { told result ≡ response_refusal packet.now }
{
    if is_bad_size(packet) {
        return Err(Refusal::Size);
    }
    if is_bad_flag(packet) {
        return Err(Refusal::Flags);
    }
    Ok(())
}

// The fields but the name.
pub fn read_response(packet: &[u8]) -> Response
    ensures { result ≡ read_response packet.now }
{
    Response {
        lm: octets::array_at(packet, LM_OFFSET),
        nt: octets::array_at(packet, NT_OFFSET),
        flag: octet(packet, FLAG_OFFSET),
    }
}

// The name, which ends at Length.
pub fn name(packet: &[u8]) -> &[u8]
    ensures { result.now ≡ read_name packet.now }
{
    let n = behind(packet, NAME_OFFSET);
    octets::part_of(packet, NAME_OFFSET, n)
}

// A name to be written is empty or over 256 octets.
fn is_bad_name(name: &[u8]) -> bool
    ensures { result ≡ bad_name name.now }
{
    name.len() < 1 || LONGEST_NAME < name.len()
}

// There is too little room for a Response with the name.
fn is_short(out: &[u8], name: &[u8]) -> bool
    ensures { result ≡ short_for_response name.now out.now }
{
    out.len() < NAME_OFFSET || out.len() - NAME_OFFSET < name.len()
}

// Puts a Response that is not refused at the front of out: how many octets it has.
fn put_response(id: u8, fields: Response, name: &[u8], out: &mut [u8]) -> usize
    requires { (length name.now ≤ longest_name)
        × (name_offset + length name.now ≤ length out.old) }
    ensures { (result ≡ length (response_packet id fields name.now))
        × (out.new ≡ written_over (response_packet id fields name.now)
        out.old) }
{
    let n = NAME_OFFSET + name.len();
    octets::copy_at(out, 0, &head(RESPONSE_CODE, id, n as u16));
    octets::copy_at(out, HEAD_SIZE, &[VALUE_SIZE as u8]);
    octets::copy_at(out, LM_OFFSET, &fields.lm);
    octets::copy_at(out, NT_OFFSET, &fields.nt);
    octets::copy_at(out, FLAG_OFFSET, &[fields.flag]);
    octets::copy_at(out, NAME_OFFSET, name);
    n
}

// Writes a Response at the front of out: how many octets it has. Refusal 10: the name is empty or
// over 256 octets. 9: too little room.
pub fn write_response(
    id: u8,
    fields: Response,
    name: &[u8],
    out: &mut [u8],
) -> Result<usize, Refusal>
    ensures answer { written_as result ≡ response_written id fields name.now out.old }
    ensures out { out.new ≡ response_out id fields name.now out.old }
{
    if is_bad_name(name) {
        return Err(Refusal::Name);
    }
    if is_short(out, name) {
        return Err(Refusal::Room);
    }
    Ok(put_response(id, fields, name, out))
}
