// The layout of a conversation.
ghost use Rattle.std.specs.Prelude.{◌≡◌};
ghost use Rattle.octets.specs.Parts.{agrees};
ghost use Rattle.layouts.specs.Call.{Fills, sized};
ghost use Rattle.layouts.specs.Conversations.{version_from, phase_of};
ghost use Rattle.layouts.specs.Conversations.{encode_state, decode_state};
ghost use Rattle.layouts.specs.Conversations.{encode_conversation, decode_conversation};
ghost use Rattle.layouts.specs.Conversations.{is_encoded_conversation, conversation_size};
ghost use Rattle.layouts.specs.Inner.{in_room};

use crate::last_answers::{LAST_SIZE, decode_last, encode_last};
use crate::records::{ENTRY_SIZE, decode_entry, encode_entry, is_flag};
use crate::room::{
    Room, TAG_SIZE, empty_room, is_value, put_byte, put_flag, put_octets, put_value,
};
use authenticator::{Conversation, Phase, awaited_code};
use verify::{ChangeVersion, Terms};

const STATE_SIZE: usize = 59;

pub const CONVERSATION_SIZE: usize = 61;

// C
pub(crate) const CONVERSATION_KIND: u8 = 67;

const AWAITED_AT: usize = 0;

const LM_ALLOWED_AT: usize = 1;

const LIMIT_AT: usize = 2;

const CHANGE_AT: usize = 3;

const IDENTIFIER_AT: usize = 4;

const RETRIES_AT: usize = 5;

const CHALLENGE_AT: usize = 6;

const KEPT_AT: usize = 14;

const LAST_AT: usize = 53;

fn version_from(n: u8) -> ChangeVersion
    ensures { result ≡ version_from n }
{
    if n == 1 {
        return ChangeVersion::One;
    }
    ChangeVersion::Two
}

fn phase_of(change: ChangeVersion, code: u8) -> Phase
    ensures { result ≡ phase_of change code }
{
    if code == packets::RESPONSE_CODE {
        return Phase::Response;
    }
    if code == awaited_code(change, Phase::Change) {
        return Phase::Change;
    }
    Phase::Ended
}

fn encode_state(conversation: Conversation) -> Room
    ensures { result.bytes ≡ in_room (encode_state conversation) }
{
    let phase = conversation.phase;
    let terms = conversation.terms;
    let change = terms.change;
    let challenge = conversation.challenge;
    let kept = conversation.kept;
    let last = conversation.last;
    let mut room = put_byte(empty_room(), AWAITED_AT, awaited_code(change, phase));
    room = put_flag(room, LM_ALLOWED_AT, terms.lm);
    room = put_byte(room, LIMIT_AT, terms.limit);
    room = put_byte(room, CHANGE_AT, authenticator::version(change));
    room = put_byte(room, IDENTIFIER_AT, conversation.id);
    room = put_byte(room, RETRIES_AT, conversation.retries);
    room = put_octets(room, CHALLENGE_AT, challenge);
    room = encode_entry(room, KEPT_AT, kept);
    encode_last(room, LAST_AT, last)
}

fn decode_state(bytes: &[u8]) -> Conversation
    ensures { result ≡ decode_state bytes.now }
{
    let lm = is_flag(packets::octet(bytes, LM_ALLOWED_AT));
    let limit = packets::octet(bytes, LIMIT_AT);
    let change = version_from(packets::octet(bytes, CHANGE_AT));
    let phase = phase_of(change, packets::octet(bytes, AWAITED_AT));
    let id = packets::octet(bytes, IDENTIFIER_AT);
    let retries = packets::octet(bytes, RETRIES_AT);
    let challenge = octets::array_at(bytes, CHALLENGE_AT);
    let kept = decode_entry(octets::part_of(bytes, KEPT_AT, ENTRY_SIZE));
    let last = decode_last(octets::part_of(bytes, LAST_AT, LAST_SIZE));
    Conversation {
        terms: Terms { lm, limit, change },
        id,
        challenge,
        retries,
        phase,
        kept,
        last,
    }
}

pub fn decode_conversation(bytes: &[u8]) -> Conversation
    ensures { result ≡ decode_conversation bytes.now }
{
    decode_state(octets::part_of(bytes, TAG_SIZE, STATE_SIZE))
}

// Whether bytes are those of that conversation.
pub fn is_conversation(conversation: Conversation, bytes: &[u8]) -> bool
    ensures { result ≡ agrees (encode_conversation conversation) bytes.now }
{
    let body = encode_state(conversation);
    is_value(CONVERSATION_KIND, body, CONVERSATION_SIZE, bytes)
}

// Whether bytes are a conversation's.
pub fn is_encoded_conversation(bytes: &[u8]) -> bool
    ensures { result ≡ is_encoded_conversation bytes.now }
{
    is_conversation(decode_conversation(bytes), bytes)
}

// Fills out with a conversation.
pub fn put_conversation(conversation: Conversation, out: &mut [u8]) -> u32
    ensures { Fills (sized conversation_size out.old) 0
        (encode_conversation conversation) out.old result out.new }
{
    let body = encode_state(conversation);
    put_value(CONVERSATION_KIND, body, CONVERSATION_SIZE, out)
}
