// What a conversation tells.
ghost use Rattle.std.specs.Prelude.{◌≡◌};
ghost use Rattle.step_calls.specs.Calls.{conversation_awaits, conversation_identifier};
ghost use Rattle.step_calls.specs.Calls.{conversation_retries};

use layouts::{INVALID, decode_conversation, is_encoded_conversation};

// The code that it awaits; 0 is none.
#[unsafe(no_mangle)]
pub extern "C" fn mschap_conversation_awaits(conversation: &[u8]) -> u32
    ensures { result ≡ conversation_awaits conversation.now }
{
    if !is_encoded_conversation(conversation) {
        return INVALID;
    }
    let decoded = decode_conversation(conversation);
    let terms = decoded.terms;
    let change = terms.change;
    let phase = decoded.phase;
    authenticator::awaited_code(change, phase) as u32
}

// The identifier that it awaits.
#[unsafe(no_mangle)]
pub extern "C" fn mschap_conversation_identifier(conversation: &[u8]) -> u32
    ensures { result ≡ conversation_identifier conversation.now }
{
    if !is_encoded_conversation(conversation) {
        return INVALID;
    }
    decode_conversation(conversation).id as u32
}

// How many retries are left.
#[unsafe(no_mangle)]
pub extern "C" fn mschap_conversation_retries(conversation: &[u8]) -> u32
    ensures { result ≡ conversation_retries conversation.now }
{
    if !is_encoded_conversation(conversation) {
        return INVALID;
    }
    decode_conversation(conversation).retries as u32
}
