// The two parts of a Response's name, for the lookup.
ghost use Rattle.std.specs.Prelude.{◌≡◌, length};
ghost use Rattle.packets.specs.Name.{is_bad_response, before_split, part_from};
ghost use Rattle.packets.specs.Name.{domain_part, account_part, domain_of, account_of};

use crate::Part;
use crate::codes::RESPONSE_CODE;
use crate::frames::{behind, is_bad_frame, octet};
use crate::responses::{is_bad_flag, is_bad_size, name};
use crate::sizes::NAME_OFFSET;

// Whether the packet by itself is refused as a Response.
fn is_bad_response(packet: &[u8]) -> bool
    ensures { result ≡ is_bad_response packet.now }
{
    let code = octet(packet, 0);
    is_bad_frame(packet) || (code != RESPONSE_CODE || (is_bad_size(packet) || is_bad_flag(packet)))
}

// How many octets stand before the first backslash, or in all where there is none.
fn split_at(name: &[u8]) -> usize
    ensures { result ≡ length (before_split name.now) }
{
    octets::up_to(name, b'\\').len()
}

// From the place at up to the packet's Length.
fn part_from(packet: &[u8], at: usize) -> Part
    ensures { result ≡ part_from at packet.now }
{
    Part {
        offset: at,
        length: behind(packet, at),
    }
}

// Where the domain stands: before the first backslash. Nowhere where there is none, or the packet
// is refused.
#[tactic(auto, unfolding(crate::specs::Name::domain_part))]
pub fn domain_part(packet: &[u8]) -> Option<Part>
    ensures { result ≡ domain_part packet.now }
{
    if is_bad_response(packet) {
        return None;
    }
    let name = name(packet);
    let length = split_at(name);
    if length < name.len() {
        return Some(Part {
            offset: NAME_OFFSET,
            length,
        });
    }
    None
}

// Where the account stands: behind the first backslash or, where there is none, the whole name.
// Nowhere where the packet is refused.
pub fn account_part(packet: &[u8]) -> Option<Part>
    ensures { result ≡ account_part packet.now }
{
    if is_bad_response(packet) {
        return None;
    }
    let name = name(packet);
    let length = split_at(name);
    if length < name.len() {
        return Some(part_from(packet, NAME_OFFSET + 1 + length));
    }
    Some(part_from(packet, NAME_OFFSET))
}

// The domain: what stands before the first backslash or, where there is none, the home domain.
// Empty for a packet that is refused.
pub fn domain<'a>(packet: &'a [u8], home: &'a [u8]) -> &'a [u8]
    ensures { result.now ≡ domain_of packet.now home.now }
{
    if is_bad_response(packet) {
        return octets::part_of(packet, 0, 0);
    }
    match domain_part(packet) {
        Some(part) => octets::part_of(packet, part.offset, part.length),
        None => home,
    }
}

// The account: the rest of the name. Empty for a packet that is refused.
pub fn account(packet: &[u8]) -> &[u8]
    ensures { result.now ≡ account_of packet.now }
{
    match account_part(packet) {
        Some(part) => octets::part_of(packet, part.offset, part.length),
        None => octets::part_of(packet, 0, 0),
    }
}
