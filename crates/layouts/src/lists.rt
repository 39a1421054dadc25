// The layout of a list of issued challenges.
ghost use Rattle.std.specs.Prelude.{◌≡◌};
ghost use Rattle.octets.specs.Parts.{over};
ghost use Rattle.layouts.specs.Lists.{list_head, used_in, places_in, is_list};

use crate::room::TAG_SIZE;

// The bytes before the places.
pub const LIST_HEAD_SIZE: usize = 4;

// L
const LIST_KIND: u8 = 76;

const LIST_VERSION: u8 = 1;

const USED_AT: usize = 2;

// Whether bytes begin as a list does.
pub fn is_list(bytes: &[u8]) -> bool
    ensures { result ≡ is_list bytes.now }
{
    if bytes.len() < LIST_HEAD_SIZE {
        return false;
    }
    let head = [LIST_KIND, LIST_VERSION];
    octets::agree(octets::part_of(bytes, 0, TAG_SIZE), &head)
}

// How many places a list says are used.
pub fn used_in(bytes: &[u8]) -> u16
    ensures { result ≡ used_in bytes.now }
{
    octets::u16_from_be(packets::octet(bytes, USED_AT), packets::octet(bytes, 3))
}

// The places of a list.
pub fn places_in(bytes: &[u8]) -> &[u8]
    ensures { result.now ≡ places_in bytes.now }
{
    octets::part_of(bytes, LIST_HEAD_SIZE, bytes.len())
}

// Writes the bytes before the places.
pub fn put_list_head(used: usize, bytes: &mut [u8])
    ensures { bytes.new ≡ over (list_head used) bytes.old }
{
    let head = [
        LIST_KIND,
        LIST_VERSION,
        (used / 256 % 256) as u8,
        (used % 256) as u8,
    ];
    octets::copy(bytes, &head);
}
