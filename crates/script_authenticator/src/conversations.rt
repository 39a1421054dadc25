// The commands of a conversation, over what goes on from one to the next.
ghost use Rattle.std.specs.Prelude.{◌≡◌};
ghost use Rattle.authenticator.specs.Conversation.{closed};

use super::{lists, names, records};
use accounts::Lookup;
use authenticator::{Conversation, Drawn, LastAnswer, Phase, Reply, Settings, Step};
use lists::List;
use script::Hex;
use std::io;
use std::io::Write;
use verify::{ChangeVersion, Terms};

// The current conversation, the limit, the version of the change (or silence about it) and the list
// that are passed with an opening, the record that is passed with a step, and the one that the last
// step handed out.
#[derive(Clone, Copy)]
pub struct ScriptState {
    conversation: Conversation,
    limit: u8,
    version: Option<ChangeVersion>,
    list: List,
    record: Lookup,
    updated: Lookup,
}

// What stands for the conversation where an opening was refused: it has ended, and has no limit.
fn closed_conversation() -> Conversation
    ensures { result ≡ closed }
{
    Conversation {
        terms: Terms {
            lm: false,
            limit: 0,
            change: ChangeVersion::Two,
        },
        id: 0,
        challenge: [0; 8],
        retries: 0,
        phase: Phase::Ended,
        kept: accounts::blank_entry(),
        last: LastAnswer {
            present: false,
            code: 0,
            id: 0,
            reply: Reply::Success,
        },
    }
}

// ---- the words of an opening

// The version of word 1, or silence.
fn named_version(line: &[u8]) -> Option<ChangeVersion> {
    match script::word(line, 1) {
        b"1" => Some(ChangeVersion::One),
        b"2" => Some(ChangeVersion::Two),
        _ => None,
    }
}

// The retries of word 3.
fn retries(line: &[u8]) -> Option<u8> {
    match script::word(line, 3) {
        b"-" => None,
        _ => Some(script::octet(line, 3)),
    }
}

// What word 4 says of LM.
fn lm_choice(line: &[u8]) -> Option<bool> {
    match script::word(line, 4) {
        b"yes" => Some(true),
        b"no" => Some(false),
        _ => None,
    }
}

// ---- a step's answer

// REFUSAL REASON REPEATED FAULT WRITTEN BUFFER
fn put_step(output: &mut impl Write, step: Step, reply: &[u8]) -> io::Result<()> {
    let (reason, repeated) = match step.drawn {
        Drawn::Repeated(reason) => (reason, 1),
        Drawn::Judged(reason) => (reason, 0),
    };
    let fault = verify::fault_number(step.fault);
    write!(
        output,
        " = 0 {reason} {repeated} {fault} {} {}",
        step.written,
        Hex(reply)
    )
}

// ---- the commands

impl ScriptState {
    // At the start: no conversation that goes on, a limit of 255, silence about the change, eight
    // empty places, and no records.
    pub fn new() -> ScriptState {
        ScriptState {
            conversation: closed_conversation(),
            limit: 255,
            version: None,
            list: List::empty(8),
            record: accounts::not_found(),
            updated: accounts::not_found(),
        }
    }

    // relend
    fn relend(&mut self) {
        if self.updated.found {
            self.record = self.updated;
        }
    }

    // open ID CHALLENGE R LM BUFFER: REFUSAL WRITTEN BUFFER CONVERSATION LIST. The opening becomes
    // the current conversation.
    fn open(&mut self, output: &mut impl Write, line: &[u8]) -> io::Result<()> {
        let mut room = [0u8; 2048];
        let reply = script::octets_in(line, 5, &mut room);
        let settings = Settings {
            id: script::octet(line, 1),
            challenge: script::octets(line, 2),
            retries: retries(line),
            lm: lm_choice(line),
            change: self.version,
            limit: self.limit,
        };
        let (conversation, written) = match self.list.open(settings, reply) {
            Ok(started) => (started.conversation, Ok(started.written)),
            Err(refusal) => (closed_conversation(), Err(refusal)),
        };
        self.conversation = conversation;
        script::put_written(output, written, reply)?;
        records::put_conversation(output, conversation)?;
        write!(output, " {}", self.list)
    }

    // step PACKET BUFFER: REFUSAL REASON REPEATED FAULT WRITTEN BUFFER CONVERSATION RECORD. The
    // next conversation becomes the current one, and the record is kept for `relend` and
    // `schedules`.
    fn step(&mut self, output: &mut impl Write, line: &[u8]) -> io::Result<()> {
        let mut packet_room = [0u8; 2048];
        let packet = script::octets_in(line, 1, &mut packet_room);
        let mut room = [0u8; 2048];
        let reply = script::octets_in(line, 2, &mut room);
        match self.conversation.step(packet, self.record, reply) {
            Ok(step) => {
                self.conversation = step.next;
                self.updated = step.updated;
                put_step(output, step, reply)?;
            }
            Err(refusal) => {
                self.updated = accounts::not_found();
                write!(output, " = {refusal} 0 0 0 0 {}", Hex(reply))?;
            }
        }
        records::put_conversation(output, self.conversation)?;
        write!(output, " ")?;
        records::put_lookup(output, self.updated)
    }

    // Runs a line whose command is one of these: writes its result, and keeps what goes on to the
    // next line. Writes nothing and changes nothing for any other.
    pub fn run(&mut self, output: &mut impl Write, line: &[u8]) -> io::Result<()> {
        match script::word(line, 0) {
            b"name" => return names::name(output, line),
            // account -, account NT LM MARKS, account NT LM MARKS COUNT, and this with NTKEYS or
            // NTKEYS LMKEYS
            b"account" => self.record = records::lookup(line),
            b"relend" => self.relend(),
            // list BUFFER USED COUNTS
            b"list" => self.list = List::read(line),
            // places N
            b"places" => self.list = List::empty(script::octet(line, 1)),
            b"open" => return self.open(output, line),
            b"step" => return self.step(output, line),
            // limit N
            b"limit" => self.limit = script::octet(line, 1),
            b"schedules" => return records::put_schedules(output, self.updated),
            // changeversion V
            b"changeversion" => self.version = named_version(line),
            _ => {}
        }
        Ok(())
    }
}
