// The opening of a conversation.
ghost use Rattle.std.specs.Prelude.{◌≡◌, suc, ◌≤◌};
ghost use Rattle.refusals.specs.Refusal.{told};
ghost use Rattle.issued.specs.Issued.{spend_refusal, spent, used_after};
ghost use Rattle.challenges.specs.Challenges.{challenges_from};
ghost use Rattle.authenticator.specs.Opening.{retries_of, lm_allowed, change_of};
ghost use Rattle.authenticator.specs.Opening.{first_conversation, places_after, OpenedAs};
ghost use Rattle.authenticator.specs.Inner.{opening_with};

use crate::successors::no_answer;
use crate::{Conversation, Phase, Settings, Started};
use accounts::blank_entry;
use refusals::Refusal;
use verify::{ChangeVersion, Terms};

const DEFAULT_RETRIES: u8 = 2;

const MOST_RETRIES: u8 = 7;

impl Settings {
    fn retries(self) -> u8
        ensures { result ≡ retries_of self.retries }
    {
        self.retries.unwrap_or(DEFAULT_RETRIES)
    }

    fn allows_lm(self) -> bool
        ensures { result ≡ lm_allowed self.lm }
    {
        self.lm.unwrap_or(false)
    }

    fn awaited_change(self) -> ChangeVersion
        ensures { result ≡ change_of self.change }
    {
        self.change.unwrap_or(ChangeVersion::Two)
    }

    // The conversation that they open.
    fn conversation(self) -> Conversation
        ensures { result ≡ first_conversation (opening_with self) }
    {
        let challenge = self.challenge;
        let kept = blank_entry();
        let last = no_answer();
        Conversation {
            terms: Terms {
                lm: self.allows_lm(),
                limit: self.limit,
                change: self.awaited_change(),
            },
            id: self.id,
            challenge,
            retries: self.retries(),
            phase: Phase::Response,
            kept,
            last,
        }
    }
}

// Spends the challenge and its r successors: how many places are used then. Refusals 24, 16 and 17.
fn spend(
    challenge: [u8; 8],
    r: u8,
    list: &mut [u8],
    used: usize,
    counts: &mut [u16],
) -> Result<usize, Refusal>
    requires { r ≤ 7 }
    ensures refusal { told result ≡ spend_refusal 8 (challenges_from (suc r) challenge)
        (record { buffer = list.old; used = used; counts = counts.old }) }
    ensures list { record {
      buffer = list.new;
      used = used_after used result;
      counts = counts.new;
    } ≡ spent 8 (challenges_from (suc r) challenge)
        (record { buffer = list.old; used = used; counts = counts.old }) }
{
    let run = challenges::challenges_from(challenge);
    let n = 8 * (usize::from(r) + 1);
    issued::spend(list, used, counts, 8, octets::part_of(&run, 0, n))
}

impl Conversation {
    // Opens a conversation: spends its challenge and r successors, which adds them to the list of
    // issued challenges, and writes its Challenge. The list is what stands in the first used places
    // of the buffer list, 8 octets each, and counts are how many of them end in each octet. An
    // account with limit failures or more is locked. Refusals, which leave all as it was, in this
    // order: 18 (limit 0), 13 (r over 7), 2 (reply under 17 octets), 24 (a bad list), 16 (one of
    // them was issued before), 17 (too few places are left).
    pub fn open(
        settings: Settings,
        list: &mut [u8],
        used: usize,
        counts: &mut [u16],
        reply: &mut [u8],
    ) -> Result<Started, Refusal>
        ensures { OpenedAs (record {
          id = settings.id;
          challenge = settings.challenge;
          retries = settings.retries;
          lm = settings.lm;
          change = settings.change;
          limit = settings.limit;
          issued = record {
            buffer = list.old;
            used = used;
            counts = counts.old;
          };
          buffer = reply.old;
        }) result
            (record { buffer = list.new; used = places_after used result; counts = counts.new })
            reply.new }
    {
        let r = settings.retries();
        if settings.limit == 0 {
            return Err(Refusal::Limit);
        }
        if MOST_RETRIES < r {
            return Err(Refusal::Retries);
        }
        if packets::is_bad_reply_buffer(reply) {
            return Err(Refusal::ReplyBuffer);
        }
        let used = spend(settings.challenge, r, list, used, counts)?;
        let written = packets::write_challenge(settings.id, settings.challenge, reply);
        let conversation = settings.conversation();
        Ok(Started {
            conversation,
            written,
            used,
        })
    }
}
