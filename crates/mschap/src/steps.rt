// The authenticator takes one step for each packet, and what its answer tells.
ghost use Rattle.std.specs.Prelude.{◌≡◌};
ghost use Rattle.step_calls.specs.Calls.{StepCall, answer_reason, answer_repeated};
ghost use Rattle.step_calls.specs.Calls.{answer_fault, AnswerRecordCall};

use layouts::{INVALID, decode_answer, is_encoded_answer};
use verify::fault_number;

// One step of a conversation: a packet, the record of the named account or none, and a reply
// buffer. The next conversation takes the place of this one, and answer has whether the reply is
// the last one again, its reason, what is wrong with a change, and a record or none: after every
// judged Response that was passed one, that record with its count; after an accepted change, the
// new one. 1 to 7: the packet is refused.
#[unsafe(no_mangle)]
pub extern "C" fn mschap_step(
    conversation: &mut [u8],
    packet: &[u8],
    account: &[u8],
    reply: &mut [u8],
    answer: &mut [u8],
) -> u32
    ensures { StepCall conversation.old packet.now
        account.now reply.old answer.old result
        conversation.new reply.new answer.new }
{
    step_calls::step(conversation, packet, account, reply, answer)
}

// ---- what an answer tells

// The reason; 0 is Success.
#[unsafe(no_mangle)]
pub extern "C" fn mschap_answer_reason(answer: &[u8]) -> u32
    ensures { result ≡ answer_reason answer.now }
{
    if !is_encoded_answer(answer) {
        return INVALID;
    }
    decode_answer(answer).reason as u32
}

// 1: the reply is the last one again, and nothing was judged; 0: the packet was judged.
#[unsafe(no_mangle)]
pub extern "C" fn mschap_answer_repeated(answer: &[u8]) -> u32
    ensures { result ≡ answer_repeated answer.now }
{
    if !is_encoded_answer(answer) {
        return INVALID;
    }
    decode_answer(answer).repeated as u32
}

// What is wrong with a change that was judged and not accepted; 0 is none, and beside every other
// answer. Not for the peer.
#[unsafe(no_mangle)]
pub extern "C" fn mschap_answer_fault(answer: &[u8]) -> u32
    ensures { result ≡ answer_fault answer.now }
{
    if !is_encoded_answer(answer) {
        return INVALID;
    }
    let fault = decode_answer(answer).fault;
    u32::from(fault_number(fault))
}

// The record that is to be stored: after every judged Response that was passed one, that record
// with its count; after an accepted change, the new one. 102: there is none.
#[unsafe(no_mangle)]
pub extern "C" fn mschap_answer_record(answer: &[u8], out: &mut [u8]) -> u32
    ensures { AnswerRecordCall answer.now out.old result
        out.new }
{
    step_calls::answer_record(answer, out)
}
