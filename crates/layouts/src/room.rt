// Bytes that are being encoded: room for the largest body, which the encoders take and return. Each
// piece is laid over what was there, at a place. At last kind and version come before it.
ghost use Rattle.std.specs.Prelude.{◌≡◌, [], ◌∷◌, length, replicate};
ghost use Rattle.octets.specs.Parts.{part, over, over_at, agrees};
ghost use Rattle.layouts.specs.Call.{Fills, sized};
ghost use Rattle.layouts.specs.Values.{layout_version, tagged};
ghost use Rattle.layouts.specs.Records.{flag};
ghost use Rattle.layouts.specs.Inner.{room_size};

use crate::answers::ANSWER_KIND;
use crate::buffers::fill;
use crate::conversations::CONVERSATION_KIND;
use crate::records::{RECORD_KIND, flag};

const ROOM_SIZE: usize = 59;

pub(crate) const TAG_SIZE: usize = 2;

const VALUE_SIZE: usize = 61;

#[derive(Clone, Copy)]
pub(crate) struct Room {
    pub bytes: [u8; ROOM_SIZE],
}

// Room behind kind and version.
#[derive(Clone, Copy)]
struct Value {
    pub bytes: [u8; VALUE_SIZE],
}

pub(crate) fn empty_room() -> Room
    ensures { result.bytes ≡ replicate room_size 0 }
{
    Room {
        bytes: [0; ROOM_SIZE],
    }
}

pub(crate) fn put_byte(room: Room, at: usize, byte: u8) -> Room
    ensures { result.bytes ≡ over_at at (byte ∷ []) room.bytes }
{
    let mut bytes = room.bytes;
    let piece = [byte];
    octets::copy_at(&mut bytes, at, &piece);
    Room { bytes }
}

pub(crate) fn put_flag(room: Room, at: usize, b: bool) -> Room
    ensures { result.bytes ≡ over_at at (flag b ∷ []) room.bytes }
{
    put_byte(room, at, flag(b))
}

pub(crate) fn put_octets<const N: usize>(room: Room, at: usize, octets: [u8; N]) -> Room
    ensures { result.bytes ≡ over_at at octets.entry room.bytes }
{
    let mut bytes = room.bytes;
    octets::copy_at(&mut bytes, at, &octets);
    Room { bytes }
}

// The version of a kind's layout.
pub(crate) fn layout_version(kind: u8) -> u8
    ensures { result ≡ layout_version kind }
{
    if kind == RECORD_KIND {
        return 3;
    }
    if kind == CONVERSATION_KIND {
        return 4;
    }
    if kind == ANSWER_KIND {
        return 5;
    }
    1
}

// Kind and version, and the bytes of room behind them.
fn tag(kind: u8, room: Room) -> Value
    ensures { result.bytes ≡ tagged kind room.bytes }
{
    let body = room.bytes;
    let version = layout_version(kind);
    let mut bytes = [version; VALUE_SIZE];
    bytes[0] = kind;
    octets::copy_at(&mut bytes, TAG_SIZE, &body);
    Value { bytes }
}

// Whether bytes are the first size bytes of a value of that kind with that body.
pub(crate) fn is_value(kind: u8, room: Room, size: usize, bytes: &[u8]) -> bool
    ensures { result ≡ agrees (part 0 size (tagged kind room.bytes)) bytes.now }
{
    let value = tag(kind, room).bytes;
    octets::agree(octets::part_of(&value, 0, size), bytes)
}

// Fills out with the first size bytes of a value of that kind with that body.
pub(crate) fn put_value(kind: u8, room: Room, size: usize, out: &mut [u8]) -> u32
    ensures { Fills
        (sized (length (part 0 size (tagged kind room.bytes))) out.old) 0
        (part 0 size (tagged kind room.bytes)) out.old result out.new }
{
    let value = tag(kind, room).bytes;
    fill(octets::part_of(&value, 0, size), out)
}

// Lays them over the front of out.
pub(crate) fn lay_value(kind: u8, room: Room, size: usize, out: &mut [u8])
    ensures { out.new
        ≡ over (part 0 size (tagged kind room.bytes)) out.old }
{
    let value = tag(kind, room).bytes;
    octets::copy(out, octets::part_of(&value, 0, size));
}
