// The second part of a step: how an awaited packet is judged. Whether a Response is judged valid
// and how it is counted, whether a change is accepted, and what is wrong with one that is not, is
// found out by `verify`.
ghost use Rattle.std.specs.Prelude.{◌≡◌};
ghost use Rattle.packets.specs.Response.{read_response};
ghost use Rattle.verify.specs.Change.{checked_as};
ghost use Rattle.authenticator.specs.Judge.{
  may_retry,
  reply_for,
  after_reason,
  judge_response,
  checked_for,
  judge_change,
  judge,
  verdict_of,
};
ghost use Rattle.accounts.specs.Account.{stored_in};
ghost use Rattle.verify.specs.Response.{carrying_lookup};

use crate::{Conversation, Phase, Reply, Verdict};
use accounts::{Entry, EntryLookup, changed_entry, no_entry};
use message::reasons;
use verify::{ChangeFault, ChangeVersion, NewHashes};

impl Conversation {
    fn may_retry(self, reason: u16) -> bool
        ensures { result ≡ may_retry self reason }
    {
        (reason == reasons::AUTHENTICATION_FAILURE) & (0 < self.retries)
    }

    fn reply_for(self, reason: u16) -> Reply
        ensures { result ≡ reply_for self reason }
    {
        let retry = self.may_retry(reason);
        if reason == reasons::NO_REASON {
            Reply::Success
        } else {
            Reply::Failure(reason, retry)
        }
    }

    fn after(self, entry: Entry, reason: u16) -> Conversation
        ensures { result ≡ after_reason self entry reason }
    {
        if self.may_retry(reason) {
            return self.to_retry();
        }
        if reason == reasons::PASSWORD_EXPIRED {
            return self.to_change(entry);
        }
        self.to_end()
    }

    // A Response that is not refused. The record that is kept is the one that is handed out.
    fn response(self, packet: &[u8], lookup: EntryLookup, keys: &[u8]) -> Verdict
        ensures { result ≡ verdict_of (judge_response self
            (carrying_lookup lookup (stored_in keys.now))
            (read_response packet.now)) }
    {
        let fields = packets::read_response(packet);
        let checked = verify::check_response(self.terms, self.challenge, lookup, keys, fields);
        let reason = checked.reason;
        let updated = checked.updated;
        let reply = self.reply_for(reason);
        let next = self.after(updated.entry, reason);
        Verdict {
            reply,
            fault: None,
            next,
            updated,
        }
    }

    // What is found of the change that the terms name.
    fn checked(self, packet: &[u8]) -> Result<NewHashes, ChangeFault>
        ensures { checked_as result ≡ checked_for self.terms.change self packet.now }
    {
        let kept = self.kept;
        let challenge = self.challenge;
        match self.terms.change {
            ChangeVersion::One => {
                let fields = packets::read_change_one(packet);
                verify::check_change_one(self.terms, kept, challenge, fields)
            }
            ChangeVersion::Two => {
                let fields = packets::read_change(packet);
                verify::check_change(kept, challenge, fields)
            }
        }
    }

    // A change that is not refused.
    fn change(self, packet: &[u8]) -> Verdict
        ensures { result ≡ verdict_of (judge_change self packet.now) }
    {
        let next = self.to_end();
        match self.checked(packet) {
            Ok(hashes) => {
                let entry = changed_entry(self.kept, hashes.nt, hashes.lm);
                Verdict {
                    reply: Reply::Success,
                    fault: None,
                    next,
                    updated: EntryLookup { found: true, entry },
                }
            }
            Err(fault) => {
                let updated = no_entry();
                Verdict {
                    reply: Reply::Failure(reasons::CHANGING_PASSWORD, false),
                    fault: Some(fault),
                    next,
                    updated,
                }
            }
        }
    }

    // How a packet that is not refused is judged, by the phase.
    pub(crate) fn judge(self, packet: &[u8], lookup: EntryLookup, keys: &[u8]) -> Verdict
        ensures { result ≡ verdict_of (judge self packet.now
            (carrying_lookup lookup (stored_in keys.now))) }
    {
        match self.phase {
            Phase::Response => self.response(packet, lookup, keys),
            Phase::Change => self.change(packet),
            Phase::Ended => {
                let updated = no_entry();
                Verdict {
                    reply: Reply::Success,
                    fault: None,
                    next: self,
                    updated,
                }
            }
        }
    }
}
