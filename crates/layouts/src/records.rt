// The layout of an entry, which is an account without its round keys, and of a record.
ghost use Rattle.std.specs.Prelude.{◌≡◌, ◌≤◌};
ghost use Rattle.octets.specs.Parts.{over, over_at};
ghost use Rattle.layouts.specs.Call.{Fills, sized};
ghost use Rattle.layouts.specs.Records.{flag, is_flag, encode_hash, decode_hash};
ghost use Rattle.layouts.specs.Records.{encode_entry, decode_entry};
ghost use Rattle.layouts.specs.Records.{encode_entry_lookup, decode_entry_lookup};
ghost use Rattle.layouts.specs.Records.{record_size, record_head, encode_record, decode_head};
ghost use Rattle.layouts.specs.Records.{is_record_of, is_encoded_record};
ghost use Rattle.layouts.specs.Answers.{updated_at};
ghost use Rattle.layouts.specs.Conversations.{kept_at};
ghost use Rattle.layouts.specs.Inner.{room_size};

use crate::buffers::BAD_ARGUMENT;
use crate::keys::{BOTH_KEYS_SIZE, encode_schedules};
use crate::room::{
    Room, TAG_SIZE, empty_room, is_value, lay_value, put_byte, put_flag, put_octets,
};
use accounts::{Entry, EntryLookup, Hash, Lookup, entry_failures, entry_lookup_of, entry_with};

pub(crate) const OPTIONAL_HASH_SIZE: usize = 17;

pub(crate) const ENTRY_SIZE: usize = 39;

pub(crate) const ENTRY_LOOKUP_SIZE: usize = 40;

// A record before its round keys, with kind and version.
pub const RECORD_HEAD_SIZE: usize = 42;

pub const RECORD_SIZE: usize = RECORD_HEAD_SIZE + BOTH_KEYS_SIZE;

// R
pub(crate) const RECORD_KIND: u8 = 82;

// Places in an entry.
const NT_AT: usize = 0;

const LM_AT: usize = 17;

const DISABLED_AT: usize = 34;

const HOURS_DENIED_AT: usize = 35;

const DIALIN_DENIED_AT: usize = 36;

const EXPIRED_AT: usize = 37;

const FAILURES_AT: usize = 38;

// Places in what a lookup found.
const FOUND_AT: usize = 0;

const ENTRY_AT: usize = 1;

// No branch: a record's flags say whether there is an account, and the time is not to tell it.
pub(crate) fn flag(b: bool) -> u8
    ensures { result ≡ flag b }
{
    b as u8
}

pub(crate) fn is_flag(n: u8) -> bool
    ensures { result ≡ is_flag n }
{
    n == 1
}

fn encode_hash(mut room: Room, at: usize, hash: Hash) -> Room
    requires { at ≤ room_size }
    ensures { result.bytes ≡ over_at at (encode_hash hash) room.bytes }
{
    let octets = hash.octets;
    room = put_flag(room, at, hash.present);
    put_octets(room, at + 1, octets)
}

fn decode_hash(bytes: &[u8]) -> Hash
    ensures { result ≡ decode_hash bytes.now }
{
    let present = is_flag(packets::octet(bytes, 0));
    let octets = octets::array_at(bytes, 1);
    accounts::hash_if(present, octets)
}

pub(crate) fn encode_entry(mut room: Room, at: usize, entry: Entry) -> Room
    requires { at ≤ kept_at }
    ensures { result.bytes ≡ over_at at (encode_entry entry) room.bytes }
{
    let nt = entry.nt;
    let lm = entry.lm;
    room = encode_hash(room, at, nt);
    room = encode_hash(room, at + LM_AT, lm);
    room = put_flag(room, at + DISABLED_AT, entry.disabled);
    room = put_flag(room, at + HOURS_DENIED_AT, entry.hours_denied);
    room = put_flag(room, at + DIALIN_DENIED_AT, entry.dialin_denied);
    room = put_flag(room, at + EXPIRED_AT, entry.expired);
    put_byte(room, at + FAILURES_AT, entry.failures)
}

pub(crate) fn decode_entry(bytes: &[u8]) -> Entry
    ensures { result ≡ decode_entry bytes.now }
{
    let nt = decode_hash(octets::part_of(bytes, NT_AT, OPTIONAL_HASH_SIZE));
    let lm = decode_hash(octets::part_of(bytes, LM_AT, OPTIONAL_HASH_SIZE));
    let disabled = is_flag(packets::octet(bytes, DISABLED_AT));
    let hours = is_flag(packets::octet(bytes, HOURS_DENIED_AT));
    let dialin = is_flag(packets::octet(bytes, DIALIN_DENIED_AT));
    let expired = is_flag(packets::octet(bytes, EXPIRED_AT));
    let failures = packets::octet(bytes, FAILURES_AT);
    let entry = entry_with(nt, lm, disabled, hours, dialin, expired);
    entry_failures(entry, failures)
}

pub(crate) fn encode_entry_lookup(mut room: Room, at: usize, lookup: EntryLookup) -> Room
    requires { at ≤ updated_at }
    ensures { result.bytes ≡ over_at at (encode_entry_lookup lookup) room.bytes }
{
    let entry = lookup.entry;
    room = put_flag(room, at, lookup.found);
    encode_entry(room, at + ENTRY_AT, entry)
}

pub(crate) fn decode_entry_lookup(bytes: &[u8]) -> EntryLookup
    ensures { result ≡ decode_entry_lookup bytes.now }
{
    let found = is_flag(packets::octet(bytes, FOUND_AT));
    let entry = decode_entry(octets::part_of(bytes, ENTRY_AT, ENTRY_SIZE));
    EntryLookup { found, entry }
}

// ---- records

// A record without its round keys.
pub fn decode_head(bytes: &[u8]) -> EntryLookup
    ensures { result ≡ decode_head bytes.now }
{
    decode_entry_lookup(octets::part_of(bytes, TAG_SIZE, ENTRY_LOOKUP_SIZE))
}

// Whether bytes are those of a record with that head: as many as of one, and the head's in front.
pub fn is_record(head: EntryLookup, bytes: &[u8]) -> bool
    ensures { result ≡ is_record_of head bytes.now }
{
    let body = encode_entry_lookup(empty_room(), 0, head);
    let front = octets::part_of(bytes, 0, RECORD_HEAD_SIZE);
    bytes.len() == RECORD_SIZE && is_value(RECORD_KIND, body, RECORD_HEAD_SIZE, front)
}

// Whether bytes are a record's.
pub fn is_encoded_record(bytes: &[u8]) -> bool
    ensures { result ≡ is_encoded_record bytes.now }
{
    is_record(decode_head(bytes), bytes)
}

// Lays a record's bytes before the round keys over the front of out.
pub fn put_record_head(head: EntryLookup, out: &mut [u8])
    ensures { out.new ≡ over (record_head head) out.old }
{
    let body = encode_entry_lookup(empty_room(), 0, head);
    lay_value(RECORD_KIND, body, RECORD_HEAD_SIZE, out);
}

// Fills out with a record.
pub fn put_record(lookup: Lookup, out: &mut [u8]) -> u32
    ensures { Fills (sized record_size out.old) 0 (encode_record lookup)
        out.old result out.new }
{
    if out.len() != RECORD_SIZE {
        return BAD_ARGUMENT;
    }
    let account = lookup.account;
    let keys = encode_schedules(account);
    put_record_head(entry_lookup_of(lookup), out);
    octets::copy_at(out, RECORD_HEAD_SIZE, &keys);
    0
}
