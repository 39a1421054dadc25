// The conversations that a step can lead to. Every successor is made in one place and keeps the
// terms; the step then puts the answer there that was given.
ghost use Rattle.std.specs.Prelude.{◌≡◌};
ghost use Rattle.authenticator.specs.Conversation.{successor, ended, retried, awaiting_change};
ghost use Rattle.authenticator.specs.Conversation.{no_answer, answer_with, with_last};

use crate::admit::awaited_code;
use crate::{Conversation, LastAnswer, Phase, Reply};
use accounts::{Entry, blank_entry};

impl Conversation {
    fn successor(
        self,
        id: u8,
        challenge: [u8; 8],
        retries: u8,
        phase: Phase,
        kept: Entry,
    ) -> Conversation
        ensures { result ≡ successor self id challenge retries phase kept }
    {
        Conversation {
            id,
            challenge,
            retries,
            phase,
            kept,
            ..self
        }
    }

    // The end.
    pub(crate) fn to_end(self) -> Conversation
        ensures { result ≡ ended self }
    {
        self.successor(
            self.id,
            self.challenge,
            self.retries,
            Phase::Ended,
            blank_entry(),
        )
    }

    // Another Response is awaited; with no retries left they stay at 0.
    pub(crate) fn to_retry(self) -> Conversation
        ensures { result ≡ retried self }
    {
        self.successor(
            challenges::next_id(self.id),
            challenges::incremented(self.challenge),
            self.retries.saturating_sub(1),
            self.phase,
            self.kept,
        )
    }

    // A change is awaited, and the record is kept.
    pub(crate) fn to_change(self, entry: Entry) -> Conversation
        ensures { result ≡ awaiting_change self entry }
    {
        self.successor(
            challenges::next_id(self.id),
            self.challenge,
            self.retries,
            Phase::Change,
            entry,
        )
    }

    // The answer to the awaited packet.
    pub(crate) fn answer_with(self, reply: Reply) -> LastAnswer
        ensures { result ≡ answer_with self reply }
    {
        LastAnswer {
            present: true,
            code: awaited_code(self.terms.change, self.phase),
            id: self.id,
            reply,
        }
    }

    pub(crate) fn with_last(self, last: LastAnswer) -> Conversation
        ensures { result ≡ with_last last self }
    {
        Conversation { last, ..self }
    }
}

// None yet.
pub fn no_answer() -> LastAnswer
    ensures { result ≡ no_answer }
{
    LastAnswer {
        present: false,
        code: 0,
        id: 0,
        reply: Reply::Success,
    }
}
