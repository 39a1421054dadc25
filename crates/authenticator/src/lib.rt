// The authenticator (document 01's box): a conversation that is opened and takes one step for each
// packet. A step has three parts: a packet is refused, a repeat or awaited (admit), an awaited one
// is judged (judge), and the reply is written (encode).
#![tactic(auto)]

mod admit;
mod encode;
mod judge;
mod opening;
mod successors;

ghost use Rattle.std.specs.Prelude.{◌≡◌, ◌≤◌, length};
ghost use Rattle.packets.specs.Reply.{longest_reply};
ghost use Rattle.authenticator.specs.Admit.{step_refusal};
ghost use Rattle.refusals.specs.Refusal.{told};
ghost use Rattle.authenticator.specs.Step.{reason_in, is_repeated};
ghost use Rattle.authenticator.specs.Step.{step_reason, step_repeats, step_fault};
ghost use Rattle.authenticator.specs.Step.{repeated_as, step, kind_of, answer_as, stepped_as};
ghost use Rattle.authenticator.specs.Step.{stepped_of, hands_back, handed_out};
ghost use Rattle.packets.specs.Response.{read_response};
ghost use Rattle.accounts.specs.Account.{stored_in};
ghost use Rattle.verify.specs.Response.{judging_keys, carrying_lookup};
ghost use Rattle.verify.specs.Faults.{fault_number};

use accounts::{
    Account, Entry, EntryLookup, Lookup, Schedules, account_of, entry_lookup_of, lookup_of,
    no_entry, with_schedules,
};
pub use admit::awaited_code;
use admit::{awaits_response, is_repeat};
use encode::write_reply;
pub use encode::{reason_of, version};
use refusals::Refusal;
use verify::{ChangeFault, ChangeVersion, Terms, uses_nt};

// What a conversation awaits.
#[derive(Clone, Copy)]
pub enum Phase {
    Response,
    Change,
    Ended,
}

// What was answered last: the code and the identifier of the packet, and the reply. Before the
// first answer none is present, and the rest has no effect. (A flag and not an `Option`: C keeps a
// conversation in 61 bytes, and those behind the flag are handed back as they came: layouts
// `is_encoded_conversation`. Nor are reasons an enum: any number may stand there.)
#[derive(Clone, Copy)]
pub struct LastAnswer {
    pub present: bool,
    pub code: u8,
    pub id: u8,
    pub reply: Reply,
}

// A conversation is a value: each step takes it and gives back the next. It holds what the opening
// fixed, the awaited identifier, the challenge in force, the retries left, while a change is
// awaited the kept record (else a blank one), and the last answer, for a peer that missed it. A
// change reads hashes and no round keys, so none are kept.
#[derive(Clone, Copy)]
pub struct Conversation {
    pub terms: Terms,
    pub id: u8,
    pub challenge: [u8; 8],
    pub retries: u8,
    pub phase: Phase,
    pub kept: Entry,
    pub last: LastAnswer,
}

// What an opening is asked for: the identifier and the challenge of its Challenge, and what it says
// of the retries (silence is 2), of LM (silence disallows it) and of the change that is awaited
// after an expired password (silence is version 2's), and with how many invalid Responses in a row
// an account is locked.
#[derive(Clone, Copy)]
pub struct Settings {
    pub id: u8,
    pub challenge: [u8; 8],
    pub retries: Option<u8>,
    pub lm: Option<bool>,
    pub change: Option<ChangeVersion>,
    pub limit: u8,
}

// What an opening answers: the conversation, how many octets of the reply buffer the Challenge
// takes, and how many places of the list of issued challenges are used then.
#[derive(Clone, Copy)]
pub struct Started {
    pub conversation: Conversation,
    pub written: usize,
    pub used: usize,
}

// A reply as a value: Success, or a Failure with its reason and whether a retry is allowed.
#[derive(Clone, Copy)]
pub enum Reply {
    Success,
    Failure(u16, bool),
}

// How a packet is judged: the reply, what is wrong with a change, the next conversation, and the
// record that is handed out, without its round keys: after a Response the one that was passed, with
// its count of failures, and after an accepted change the new one.
#[derive(Clone, Copy)]
pub struct Verdict {
    pub reply: Reply,
    pub fault: Option<ChangeFault>,
    pub next: Conversation,
    pub updated: EntryLookup,
}

// What a packet draws that is not refused: it repeats the packet last answered and draws the same
// reply, whose reason is here; or it was judged with a reason (0 is Success).
#[derive(Clone, Copy)]
pub enum Drawn {
    Repeated(u16),
    Judged(u16),
}

// What a step answers: what the packet drew, what is wrong with a change that was judged and not
// accepted, the next conversation, how many octets of the reply buffer the reply takes, and the
// record that is handed out, to be passed with the next packet of that account. The peer is told
// nothing of the fault, nor of the record.
#[derive(Clone, Copy)]
pub struct Step {
    pub drawn: Drawn,
    pub fault: Option<ChangeFault>,
    pub next: Conversation,
    pub written: usize,
    pub updated: Lookup,
}

// The same without the round keys of the record. They are long: so the parts of a step that do not
// read them do not hand them on.
#[derive(Clone, Copy)]
pub struct EntryStep {
    pub drawn: Drawn,
    pub fault: Option<ChangeFault>,
    pub next: Conversation,
    pub written: usize,
    pub updated: EntryLookup,
}

// Whether the record that a step hands out is the one that was passed, but for its count, by what
// was awaited and what the packet drew: then it has the round keys that it was passed with.
pub fn hands_back(phase: Phase, drawn: Drawn) -> bool
    ensures { result ≡ hands_back phase (kind_of drawn) }
{
    match drawn {
        Drawn::Repeated(_) => false,
        Drawn::Judged(_) => awaits_response(phase),
    }
}

// The round keys beside the hash that counts for a packet. As many are copied either way.
fn judging_keys(account: Account, packet: &[u8]) -> Schedules
    ensures { result ≡ judging_keys account (read_response packet.now) }
{
    if uses_nt(packets::octet(packet, packets::FLAG_OFFSET), account.nt) {
        return account.nt_keys;
    }
    account.lm_keys
}

// The record that is handed out: with the round keys that it was passed with, or with those of its
// own hashes where it is another one.
fn handed_out(back: bool, passed: Account, updated: EntryLookup) -> Lookup
    ensures { result ≡ handed_out back passed updated }
{
    let entry = updated.entry;
    if back {
        let account = with_schedules(entry, passed.nt_keys, passed.lm_keys);
        return lookup_of(updated.found, account);
    }
    lookup_of(updated.found, account_of(entry))
}

impl Conversation {
    // The last answer again.
    fn repeat(self, reply: &mut [u8]) -> EntryStep
        requires { longest_reply ≤ length reply.old }
        ensures { (stepped_as self (Ok result) ≡ stepped_of (repeated_as self reply.old).answer)
            × (reply.new ≡ (repeated_as self reply.old).buffer) }
    {
        let value = self.last.reply;
        let written = write_reply(self.terms, self.last.id, value, reply);
        let reason = reason_of(value);
        let updated = no_entry();
        EntryStep {
            drawn: Drawn::Repeated(reason),
            fault: None,
            next: self,
            written,
            updated,
        }
    }

    // Whether a packet is refused. Whoever asks first need not get the round keys ready for a
    // packet that is.
    pub fn admits(self, packet: &[u8], reply: &[u8]) -> Result<(), Refusal>
        ensures { told result ≡ step_refusal self packet.now reply.now }
    {
        let repeated = is_repeat(self.last, packet);
        self.admit(repeated, packet, reply)
    }

    // One step, by an entry and the round keys beside the hash that counts for the packet: those of
    // the NT hash where `verify::uses_nt` says so, else those of the LM hash. They are lent in
    // octets, as C has them, and not copied.
    pub fn step_by(
        self,
        packet: &[u8],
        lookup: EntryLookup,
        keys: &[u8],
        reply: &mut [u8],
    ) -> Result<EntryStep, Refusal>
        ensures { (stepped_as self result ≡ stepped_of (step self packet.now
            (carrying_lookup lookup (stored_in keys.now)) reply.old).answer)
            × (reply.new ≡ (step self packet.now
            (carrying_lookup lookup (stored_in keys.now)) reply.old
            ).buffer) }
    {
        let repeated = is_repeat(self.last, packet);
        self.admit(repeated, packet, reply)?;
        if repeated {
            return Ok(self.repeat(reply));
        }
        let judged = self.judge(packet, lookup, keys);
        let value = judged.reply;
        let written = write_reply(self.terms, self.id, value, reply);
        let reason = reason_of(value);
        let answer = self.answer_with(value);
        let next = judged.next.with_last(answer);
        Ok(EntryStep {
            drawn: Drawn::Judged(reason),
            fault: judged.fault,
            next,
            written,
            updated: judged.updated,
        })
    }

    // One step: a packet is refused, and conversation and buffer stay as they were; or it repeats
    // the one last answered, draws the same reply, and the conversation stays as it was, whatever
    // record is passed; or it is judged and draws a reply.
    pub fn step(self, packet: &[u8], lookup: Lookup, reply: &mut [u8]) -> Result<Step, Refusal>
        ensures { (answer_as self result ≡ (step self packet.now lookup reply.old).answer)
            × (reply.new
            ≡ (step self packet.now lookup reply.old).buffer)
            × (told result ≡ step_refusal self packet.now reply.old)
            × (reason_in (answer_as self result).kind
            ≡ step_reason self packet.now lookup reply.old)
            × (is_repeated (answer_as self result).kind
            ≡ step_repeats self packet.now reply.old)
            × (fault_number (answer_as self result).fault
            ≡ step_fault self packet.now reply.old) }
    {
        let schedules = judging_keys(lookup.account, packet);
        let keys = credentials::key_octets(schedules.keys);
        let stepped = self.step_by(packet, entry_lookup_of(lookup), &keys, reply)?;
        let back = hands_back(self.phase, stepped.drawn);
        let updated = handed_out(back, lookup.account, stepped.updated);
        Ok(Step {
            drawn: stepped.drawn,
            fault: stepped.fault,
            next: stepped.next,
            written: stepped.written,
            updated,
        })
    }
}
