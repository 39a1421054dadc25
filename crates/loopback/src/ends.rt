// Both ends of a conversation, and what passes between them: each step prints its packets.
use super::lines;
use accounts::Lookup;
use authenticator::{Conversation, Settings, Started};
use lines::Shown;
use peer::{PacketWritten, Peer};
use refusals::Refusal;
use std::io;
use std::io::Write;
use verify::ChangeVersion;

const LIMIT: u8 = 10;

// ---- passwords, challenges and records

// Which password a peer knows: the right one, `MyPw` of RFC 2433, B.2, a wrong one, or the one that
// a change sets.
#[derive(Clone, Copy)]
pub enum Password {
    Right,
    Wrong,
    New,
}

impl Password {
    // As 16-bit characters.
    pub fn octets(self) -> &'static [u8] {
        match self {
            Password::Right => b"M\0y\0P\0w\0",
            Password::Wrong => b"b\0a\0d\0",
            Password::New => b"M\0y\0N\0e\0w\0P\0w\0",
        }
    }

    // What a Response was made from.
    fn response_made(self) -> &'static str {
        match self {
            Password::Right => {
                "The peer answers from the right password, and says who it is: BENCH\\user."
            }
            Password::Wrong => {
                "The peer answers from a wrong password, and says who it is: BENCH\\user."
            }
            Password::New => {
                "The peer answers from the new password, and says who it is: BENCH\\user."
            }
        }
    }

    pub fn nt_hash(self) -> io::Result<[u8; 16]> {
        or_invalid(credentials::nt_hash(self.octets()))
    }
}

pub fn challenge() -> [u8; 8] {
    [0x10, 0x2d, 0xb5, 0xdf, 0x08, 0x5d, 0x30, 0x41]
}

// One that none of the 23 rule's turns makes of it.
pub fn another_challenge() -> [u8; 8] {
    [0xd0, 0x2e, 0x43, 0x86, 0xbc, 0xe9, 0x12, 0x26]
}

// The NT hash of the right password.
pub fn old_hash() -> io::Result<[u8; 16]> {
    Password::Right.nt_hash()
}

// The record of the account: its NT hash, no LM hash, and whether the password has expired.
pub fn account(expired: bool) -> io::Result<Lookup> {
    let nt = accounts::hash_of(old_hash()?);
    let lm = accounts::no_hash();
    Ok(accounts::found(accounts::account_with(nt, lm, false, false, false, expired)))
}

// No scene goes on behind what is refused here: the program ends.
pub fn or_invalid<T>(answer: Result<T, Refusal>) -> io::Result<T> {
    match answer {
        Ok(value) => Ok(value),
        Err(_) => Err(io::Error::from(io::ErrorKind::InvalidInput)),
    }
}

// ---- the opening

// A list of issued challenges, of which so many places are used. (An array with a number beside it:
// an opening is lent the list in these parts, as C keeps it, the places that are free among them.)
#[derive(Clone, Copy)]
pub struct IssuedList {
    octets: [u8; 64],
    used: usize,
    counts: [u16; 256],
}

impl IssuedList {
    pub fn empty() -> IssuedList {
        IssuedList {
            octets: [0; 64],
            used: 0,
            counts: [0; 256],
        }
    }

    // A conversation on the list, which a refused opening leaves as it was. (Two of its fields
    // cannot be lent at once, so that they are copied.)
    fn open(&mut self, settings: Settings, reply: &mut [u8]) -> Result<Started, Refusal> {
        let mut octets = self.octets;
        let mut counts = self.counts;
        let started = Conversation::open(settings, &mut octets, self.used, &mut counts, reply)?;
        self.octets = octets;
        self.counts = counts;
        self.used = started.used;
        Ok(started)
    }

    // Prints the list.
    pub fn say(&self, output: &mut impl Write) -> io::Result<()> {
        // the bound keeps the product small
        let issued = octets::part_of(&self.octets, 0, 8 * self.used.min(8));
        write!(
            output,
            "      The list has {} challenges of 8 octets,",
            self.used
        )?;
        write!(output, " for each opening its own and one for each retry: ")?;
        writeln!(output, "{}", Shown(issued))
    }
}

// What a box is told where nothing is said of the retries, of LM and of the change, with a limit
// that no scene reaches: two retries, no LM, and version 2's change.
pub fn settings(id: u8, challenge: [u8; 8]) -> Settings {
    Settings {
        id,
        challenge,
        retries: None,
        lm: None,
        change: None,
        limit: LIMIT,
    }
}

// The same with the usual challenge.
pub fn usual_settings() -> Settings {
    settings(7, challenge())
}

// The same of a box that is opened for version 1's change.
pub fn settings_for_one() -> Settings {
    Settings {
        change: Some(ChangeVersion::One),
        ..usual_settings()
    }
}

// Both ends: the conversation, the peer, the list as the opening left it, and the record that the
// last packet handed out.
#[derive(Clone, Copy)]
pub struct Loopback {
    pub conversation: Conversation,
    pub peer: Peer,
    pub list: IssuedList,
    pub updated: Lookup,
}

impl Loopback {
    // The opening, on a list of issued challenges: the box sends a Challenge, and the peer reads
    // it; or the box refuses to open, and there are no ends.
    pub fn try_open(
        output: &mut impl Write,
        settings: Settings,
        mut list: IssuedList,
    ) -> io::Result<Option<Loopback>> {
        let mut reply = [0u8; 17];
        let started = match list.open(settings, &mut reply) {
            Ok(started) => started,
            Err(refusal) => {
                lines::refused_opening(output, refusal, settings.challenge)?;
                return Ok(None);
            }
        };
        let sent = octets::part_of(&reply, 0, started.written);
        lines::from_box(output, sent)?;
        lines::terms(output, started.conversation.terms)?;
        let peer = or_invalid(Peer::read_challenge(sent))?;
        Ok(Some(Loopback {
            conversation: started.conversation,
            peer,
            list,
            updated: accounts::not_found(),
        }))
    }

    // The same where the box has to open.
    pub fn open_on(
        output: &mut impl Write,
        settings: Settings,
        list: IssuedList,
    ) -> io::Result<Loopback> {
        match Loopback::try_open(output, settings, list)? {
            Some(loopback) => Ok(loopback),
            None => Err(io::Error::from(io::ErrorKind::InvalidInput)),
        }
    }

    // The same of a box that is alone on its list.
    pub fn open(output: &mut impl Write, settings: Settings) -> io::Result<Loopback> {
        Loopback::open_on(output, settings, IssuedList::empty())
    }

    // ---- a packet of the peer, and the box's answer

    // The peer reads the answer to what it sent.
    fn read(&mut self, output: &mut impl Write, sent: Peer, answer: &[u8]) -> io::Result<()> {
        lines::from_box(output, answer)?;
        match sent.read_reply(answer) {
            Ok(read) => {
                self.peer = read.peer;
                lines::verdict(output, read.verdict)
            }
            Err(_) => {
                self.peer = sent;
                writeln!(output, "      The peer cannot read this.")
            }
        }
    }

    // The box takes the packet that the peer wrote, the first octets of out, and answers, and the
    // peer reads the answer. A packet does not show what it was made from: made says it.
    pub fn answered(
        &mut self,
        output: &mut impl Write,
        wrote: PacketWritten,
        out: &[u8],
        made: &str,
        lookup: Lookup,
    ) -> io::Result<()> {
        let packet = octets::part_of(out, 0, wrote.length);
        lines::from_peer(output, packet, made)?;
        let mut reply = [0u8; 17];
        let step = or_invalid(self.conversation.step(packet, lookup, &mut reply))?;
        self.conversation = step.next;
        self.updated = step.updated;
        lines::repeated(output, step.drawn)?;
        self.read(output, wrote.peer, octets::part_of(&reply, 0, step.written))?;
        lines::support(output, step.fault)
    }

    // Prints the count of the record that was handed out, and the box's limit.
    pub fn say_failures(&self, output: &mut impl Write) -> io::Result<()> {
        let failures = self.updated.account.failures;
        let limit = self.conversation.terms.limit;
        write!(
            output,
            "      Invalid Responses in a row, by the record that is handed out: "
        )?;
        writeln!(output, "{failures}. At {limit} the account is locked.")
    }

    // ---- the Response

    // Writes a Response from a password.
    pub fn write_response(&self, password: Password, out: &mut [u8]) -> io::Result<PacketWritten> {
        or_invalid(
            self.peer
                .write_response(password.octets(), b"BENCH\\user", out),
        )
    }

    // A Response from a password, with a record.
    pub fn response(
        &mut self,
        output: &mut impl Write,
        password: Password,
        lookup: Lookup,
    ) -> io::Result<()> {
        let mut out = [0u8; 310];
        let wrote = self.write_response(password, &mut out)?;
        self.answered(output, wrote, &out, password.response_made(), lookup)
    }

    // ---- the change, version 2's

    // Writes the change of a password to the new one.
    pub fn write_change(&self, old: Password, out: &mut [u8]) -> io::Result<PacketWritten> {
        let filler = [0x5au8; 512];
        let new = Password::New.octets();
        or_invalid(self.peer.write_change(old.octets(), new, &filler, out))
    }

    // The change of a password. The box decides by the record that it kept, so that none is passed.
    pub fn change(&mut self, output: &mut impl Write, old: Password) -> io::Result<()> {
        let mut out = [0u8; 1118];
        let wrote = self.write_change(old, &mut out)?;
        let made = match old {
            Password::Right => {
                "The peer sends the new password sealed under the old one's hash: it knows both."
            }
            _ => "The peer sends the new password sealed under a wrong one's hash.",
        };
        self.answered(output, wrote, &out, made, accounts::not_found())
    }

    // ---- the change, version 1's

    // Writes the version 1 change of the right password to the new one.
    pub fn write_change_one(&self, out: &mut [u8]) -> io::Result<PacketWritten> {
        let old = Password::Right.octets();
        or_invalid(self.peer.write_change_one(old, Password::New.octets(), out))
    }

    // The change itself.
    pub fn change_one(&mut self, output: &mut impl Write) -> io::Result<()> {
        let mut out = [0u8; 72];
        let wrote = self.write_change_one(&mut out)?;
        let made = "The peer sends the old and the new password's hash, under the challenge.";
        self.answered(output, wrote, &out, made, accounts::not_found())
    }
}
