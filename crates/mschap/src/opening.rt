// The authenticator opens a conversation.
ghost use Rattle.std.specs.Prelude.{◌≡◌, ◌≤◌, length};
ghost use Rattle.layouts.specs.Lists.{list_head_size};
ghost use Rattle.mschap.specs.Opening.{opening_for, open_arguments, OpenCall};
ghost use Rattle.mschap.specs.Inner.{OpenedOn};

use authenticator::{Conversation, Settings, Started};
use layouts::{
    BAD_ARGUMENT, CONVERSATION_SIZE, LIST_HEAD_SIZE, is_list, places_in, put_conversation,
    put_list_head, refused, used_in,
};
use numbers::{change_in, is_terms, limit_in, lm_in, retries_in};
use packets::CHALLENGE_SIZE;
use refusals::Refusal;

const IDENTIFIERS_END: u32 = 256;

#[tactic(auto, unfolding(crate::specs::Opening::open_arguments))]
fn are_open_arguments(
    id: u32,
    terms: u32,
    challenge: &[u8],
    list: &[u8],
    conversation: &[u8],
) -> bool
    ensures { result ≡ open_arguments id terms challenge.now list.now
        conversation.now }
{
    id < IDENTIFIERS_END
        && is_terms(terms)
        && challenge.len() == CHALLENGE_SIZE
        && is_list(list)
        && conversation.len() == CONVERSATION_SIZE
}

// Opens on the list that is encoded, and writes it back.
fn open_on(
    id: u8,
    terms: u32,
    challenge: &[u8],
    list: &mut [u8],
    reply: &mut [u8],
) -> Result<Started, Refusal>
    requires challenge_len { length challenge.now ≡ 8 }
    requires list_head_size_in_bounds { list_head_size ≤ length list.old }
    ensures { OpenedOn
        (opening_for id terms challenge.now list.old reply.old)
        list.old result list.new reply.new }
{
    let settings = Settings {
        id,
        challenge: octets::array_at(challenge, 0),
        retries: retries_in(terms),
        lm: lm_in(terms),
        change: change_in(terms),
        limit: limit_in(terms),
    };
    let used = used_in(list) as usize;
    let mut counts = issued::true_counts(places_in(list), used, CHALLENGE_SIZE).counts;
    let started = Conversation::open(
        settings,
        &mut list[LIST_HEAD_SIZE..],
        used,
        &mut counts,
        reply,
    )?;
    put_list_head(started.used, list);
    Ok(started)
}

// Opens a conversation with an identifier, terms and a challenge. Adds the challenge and its
// successors to the list of issued challenges. Writes the Challenge into reply, and the
// conversation. 18: limit 0, also where the terms say nothing of one. 13: over 7 retries. 2: reply
// has under 17 bytes. 24: a bad list. 16: a challenge that was issued before. 17: the list is full.
#[unsafe(no_mangle)]
pub extern "C" fn mschap_open(
    id: u32,
    terms: u32,
    challenge: &[u8],
    list: &mut [u8],
    conversation: &mut [u8],
    reply: &mut [u8],
) -> u32
    ensures { OpenCall id terms challenge.now list.old
        conversation.old reply.old result
        list.new conversation.new reply.new }
{
    if !are_open_arguments(id, terms, challenge, list, conversation) {
        return BAD_ARGUMENT;
    }
    match open_on(id as u8, terms, challenge, list, reply) {
        Ok(started) => put_conversation(started.conversation, conversation),
        Err(refusal) => refused(refusal),
    }
}
