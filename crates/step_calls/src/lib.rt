// A step in buffers of C's: the authenticator takes one for each packet, and its answer gives the
// record that is to be stored. What a call returns and leaves is said here; `mschap` exports the
// two under their names in C. Every public function is total.
#![tactic(auto)]

ghost use Rattle.std.specs.Prelude.{◌≡◌, cond, length};
ghost use Rattle.accounts.specs.Account.{account_of};
ghost use Rattle.authenticator.specs.Step.{taken_as};
ghost use Rattle.layouts.specs.Answers.{answer_size};
ghost use Rattle.layouts.specs.Conversations.{conversation_size};
ghost use Rattle.layouts.specs.Keys.{encode_schedules};
ghost use Rattle.layouts.specs.Records.{record_size, nt_keys_at, lm_keys_at};
ghost use Rattle.verify.specs.Response.{uses_nt};
ghost use Rattle.step_calls.specs.Calls.{StepCall, answer_record_arguments, AnswerRecordCall};
ghost use Rattle.step_calls.specs.Inner.{AnswerPut, step_arguments_as};

use accounts::{Entry, EntryLookup, Hash, account_of};
use authenticator::{Conversation, EntryStep, Phase, hands_back};
use layouts::{
    ANSWER_HEAD_SIZE, ANSWER_SIZE, BAD_ARGUMENT, BOTH_KEYS_SIZE, KEYS_SIZE, RECORD_HEAD_SIZE,
    RECORD_SIZE, decode_answer, decode_conversation, decode_head, encode_schedules,
    is_conversation, is_encoded_answer, is_record, put_answer, put_conversation, put_record_head,
    refused,
};
use numbers::{has_record, result_of};

// Whether what was decoded encodes to what was passed. It is decoded once, for this and for the
// step.
fn are_step_arguments(
    before: Conversation,
    lookup: EntryLookup,
    conversation: &[u8],
    account: &[u8],
    out: &[u8],
) -> bool
    ensures { result ≡ step_arguments_as before lookup conversation.now
        account.now out.now }
{
    is_conversation(before, conversation) && is_record(lookup, account) && out.len() == ANSWER_SIZE
}

// Where the round keys begin that judge a Response, in a record, chosen without a branch.
fn judging_at(flag: u8, nt: Hash) -> usize
    ensures { result ≡ cond (uses_nt flag nt) nt_keys_at lm_keys_at }
{
    RECORD_HEAD_SIZE + 8 * octets::where_both(flag == 1, nt.present, 0, 48) as usize
}

// The bytes of the round keys of an entry's own hashes. None are made where it has no hash, as
// after a repeat.
fn made_keys(entry: Entry) -> [u8; BOTH_KEYS_SIZE]
    ensures { result ≡ encode_schedules (account_of entry) }
{
    let nt = entry.nt;
    let lm = entry.lm;
    if !nt.present && !lm.present {
        return [0; BOTH_KEYS_SIZE];
    }
    encode_schedules(account_of(entry))
}

// Writes the next conversation and the answer. The round keys of a record that is handed back are
// copied as they are.
fn put_stepped(
    phase: Phase,
    stepped: EntryStep,
    account: &[u8],
    conversation: &mut [u8],
    out: &mut [u8],
) -> u32
    requires { (length account.now ≡ record_size)
        × (length conversation.old ≡ conversation_size) × (length out.old ≡ answer_size) }
    ensures { AnswerPut phase (taken_as stepped) account.now conversation.old
        out.old result conversation.new out.new }
{
    put_conversation(stepped.next, conversation);
    if hands_back(phase, stepped.drawn) {
        let keys = octets::part_of(account, RECORD_HEAD_SIZE, BOTH_KEYS_SIZE);
        put_answer(result_of(stepped), keys, out);
        return 0;
    }
    let made = made_keys(stepped.updated.entry);
    put_answer(result_of(stepped), &made, out);
    0
}

// One step of a conversation: a packet, the record of the named account or none, and a reply
// buffer. The next conversation takes the place of this one, and answer has whether the reply is
// the last one again, its reason, what is wrong with a change, and a record or none: after every
// judged Response that was passed one, that record with its count; after an accepted change, the
// new one. 1 to 7: the packet is refused.
pub fn step(
    conversation: &mut [u8],
    packet: &[u8],
    account: &[u8],
    reply: &mut [u8],
    answer: &mut [u8],
) -> u32
    ensures { StepCall conversation.old packet.now
        account.now reply.old answer.old result
        conversation.new reply.new answer.new }
{
    let before = decode_conversation(conversation);
    let lookup = decode_head(account);
    if !are_step_arguments(before, lookup, conversation, account, answer) {
        return BAD_ARGUMENT;
    }
    if let Err(refusal) = before.admits(packet, reply) {
        return refused(refusal);
    }
    let at = judging_at(
        packets::octet(packet, packets::FLAG_OFFSET),
        lookup.entry.nt,
    );
    let keys = octets::part_of(account, at, KEYS_SIZE);
    match before.step_by(packet, lookup, keys, reply) {
        Ok(stepped) => put_stepped(before.phase, stepped, account, conversation, answer),
        Err(refusal) => refused(refusal),
    }
}

// ---- the record of its answer

#[tactic(auto, unfolding(crate::specs::Calls::answer_record_arguments))]
fn are_answer_record_arguments(answer: &[u8], out: &[u8]) -> bool
    ensures { result ≡ answer_record_arguments answer.now out.now }
{
    is_encoded_answer(answer) && out.len() == RECORD_SIZE
}

// The record that is to be stored: after every judged Response that was passed one, that record
// with its count; after an accepted change, the new one. 102: there is none.
pub fn answer_record(answer: &[u8], out: &mut [u8]) -> u32
    ensures { AnswerRecordCall answer.now out.old result
        out.new }
{
    if !are_answer_record_arguments(answer, out) {
        return BAD_ARGUMENT;
    }
    let lookup = decode_answer(answer).updated;
    if let Err(refusal) = has_record(lookup) {
        return refused(refusal);
    }
    put_record_head(lookup, out);
    octets::copy_at(
        out,
        RECORD_HEAD_SIZE,
        octets::part_of(answer, ANSWER_HEAD_SIZE, BOTH_KEYS_SIZE),
    );
    0
}
