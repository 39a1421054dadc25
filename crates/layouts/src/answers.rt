// The layout of what C keeps of a step's answer.
ghost use Rattle.std.specs.Prelude.{◌≡◌, length};
ghost use Rattle.octets.specs.Parts.{over, over_at};
ghost use Rattle.layouts.specs.Answers.{encode_result, decode_result};
ghost use Rattle.layouts.specs.Answers.{answer_head, decode_answer, is_encoded_answer};
ghost use Rattle.layouts.specs.Answers.{answer_head_size};
ghost use Rattle.layouts.specs.Inner.{in_room};

use crate::StepResult;
use crate::keys::BOTH_KEYS_SIZE;
use crate::records::{ENTRY_LOOKUP_SIZE, decode_entry_lookup, encode_entry_lookup, is_flag};
use crate::room::{
    Room, TAG_SIZE, empty_room, is_value, lay_value, put_byte, put_flag, put_octets,
};
use verify::{fault_number, fault_with};

const RESULT_SIZE: usize = 44;

// An answer before the round keys of its record, with kind and version.
pub const ANSWER_HEAD_SIZE: usize = 46;

pub const ANSWER_SIZE: usize = ANSWER_HEAD_SIZE + BOTH_KEYS_SIZE;

// A
pub(crate) const ANSWER_KIND: u8 = 65;

const REPEATED_AT: usize = 0;

const REASON_AT: usize = 1;

const FAULT_AT: usize = 3;

const UPDATED_AT: usize = 4;

fn encode_result(res: StepResult) -> Room
    ensures { result.bytes ≡ in_room (encode_result res) }
{
    let fault = res.fault;
    let updated = res.updated;
    let mut room = put_flag(empty_room(), REPEATED_AT, res.repeated);
    room = put_octets(room, REASON_AT, octets::u16_to_be(res.reason));
    room = put_byte(room, FAULT_AT, fault_number(fault));
    encode_entry_lookup(room, UPDATED_AT, updated)
}

fn decode_result(bytes: &[u8]) -> StepResult
    ensures { result ≡ decode_result bytes.now }
{
    let repeated = is_flag(packets::octet(bytes, REPEATED_AT));
    let reason = octets::u16_from_be(packets::octet(bytes, REASON_AT), packets::octet(bytes, 2));
    let fault = fault_with(packets::octet(bytes, FAULT_AT));
    let updated = decode_entry_lookup(octets::part_of(bytes, UPDATED_AT, ENTRY_LOOKUP_SIZE));
    StepResult {
        repeated,
        reason,
        fault,
        updated,
    }
}

// What an answer says but for the round keys.
pub fn decode_answer(bytes: &[u8]) -> StepResult
    ensures { result ≡ decode_answer bytes.now }
{
    decode_result(octets::part_of(bytes, TAG_SIZE, RESULT_SIZE))
}

// Whether bytes are an answer's.
pub fn is_encoded_answer(bytes: &[u8]) -> bool
    ensures { result ≡ is_encoded_answer bytes.now }
{
    let body = encode_result(decode_answer(bytes));
    let front = octets::part_of(bytes, 0, ANSWER_HEAD_SIZE);
    bytes.len() == ANSWER_SIZE && is_value(ANSWER_KIND, body, ANSWER_HEAD_SIZE, front)
}

// Lays an answer over out: what it says, and the bytes of the round keys.
pub fn put_answer(res: StepResult, keys: &[u8], out: &mut [u8])
    ensures { (out.new ≡ over_at answer_head_size keys.now
        (over (answer_head res) out.old))
        × (length (answer_head res) ≡ answer_head_size) }
{
    let body = encode_result(res);
    lay_value(ANSWER_KIND, body, ANSWER_HEAD_SIZE, out);
    octets::copy_at(out, ANSWER_HEAD_SIZE, keys);
}
