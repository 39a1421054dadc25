// What is printed: text, and packets.
use accounts::Lookup;
use authenticator::Drawn;
use message::{Call, Failed, Verdict};
use refusals::Refusal;
use std::io::Write;
use std::{fmt, io};
use verify::{ChangeFault, ChangeVersion, Terms};

// Octets as digits, 72 of them at most, as many as a version 1 change has, and dots for the rest.
#[derive(Clone, Copy)]
pub struct Shown<'a>(pub &'a [u8]);

impl fmt::Display for Shown<'_> {
    fn fmt<W: fmt::Write>(&self, f: &mut fmt::Formatter<W>) -> fmt::Result {
        for octet in octets::part_of(self.0, 0, 72) {
            write!(f, "{octet:02X}")?;
        }
        if 72 < self.0.len() {
            write!(f, "..")?;
        }
        Ok(())
    }
}

// The challenge that a retry answers, as the rule makes it or as a slip does.
pub fn next_challenge(output: &mut impl Write, whose: &str, challenge: [u8; 8]) -> io::Result<()> {
    writeln!(
        output,
        "      {whose} the next challenge: {}",
        Shown(&challenge)
    )
}

// The octets of a packet from a place on, as a rule has them or as a slip does.
pub fn place(output: &mut impl Write, whose: &str, at: usize, octets: &[u8]) -> io::Result<()> {
    writeln!(
        output,
        "      {whose} from octet {at} on: {}",
        Shown(octets)
    )
}

// An opening that was refused, with the challenge that it was passed.
pub(crate) fn refused_opening(
    output: &mut impl Write,
    refusal: Refusal,
    challenge: [u8; 8],
) -> io::Result<()> {
    writeln!(
        output,
        "      The box does not open with {}",
        Shown(&challenge)
    )?;
    let why = match refusal {
        Refusal::Issued => ": it, or a successor of it, stands in the list",
        _ => "",
    };
    writeln!(
        output,
        "      Refusal {refusal}{why}. No Challenge is sent."
    )
}

fn kind(code: u8) -> &'static str {
    match code {
        1 => "Challenge      ",
        2 => "Response       ",
        3 => "Success        ",
        4 => "Failure        ",
        5 | 6 => "Change Password",
        _ => "other          ",
    }
}

// One packet: the way it goes, its kind, its identifier, its Length and its octets.
fn packet(output: &mut impl Write, way: &str, octets: &[u8]) -> io::Result<()> {
    let name = kind(packets::octet(octets, 0));
    let id = packets::octet(octets, 1);
    let length = packets::length(octets);
    writeln!(
        output,
        "   {way} {name} id {id}, {length} octets: {}",
        Shown(octets)
    )
}

// What a packet of the box means; of a Failure the message itself.
fn meaning(output: &mut impl Write, octets: &[u8]) -> io::Result<()> {
    write!(output, "      ")?;
    match packets::octet(octets, 0) {
        1 => {
            write!(output, "The box asks: show that you know the password, ")?;
            writeln!(output, "by answering these eight octets.")
        }
        3 => writeln!(output, "The box lets the peer in."),
        4 => {
            output.write_all(octets::part_of(octets, 4, 256))?;
            writeln!(output)
        }
        _ => writeln!(output, "This is no packet of the box."),
    }
}

pub(crate) fn from_box(output: &mut impl Write, octets: &[u8]) -> io::Result<()> {
    packet(output, "<-", octets)?;
    meaning(output, octets)
}

// That the box was asked for LM, where it was, and that it awaits version 1's change, where it
// does.
pub(crate) fn terms(output: &mut impl Write, terms: Terms) -> io::Result<()> {
    if terms.lm {
        writeln!(
            output,
            "      This box was asked for LM: it judges an LM response too."
        )?;
    }
    match terms.change {
        ChangeVersion::One => {
            write!(output, "      This box was opened for version 1's change: ")?;
            writeln!(output, "its messages say V=1.")
        }
        ChangeVersion::Two => Ok(()),
    }
}

// A packet of the peer, and what it was made from.
pub(crate) fn from_peer(output: &mut impl Write, octets: &[u8], made: &str) -> io::Result<()> {
    packet(output, "->", octets)?;
    writeln!(output, "      {made}")
}

// That the box does not judge the packet, where it is a repeat.
pub(crate) fn repeated(output: &mut impl Write, drawn: Drawn) -> io::Result<()> {
    match drawn {
        Drawn::Repeated(_) => {
            write!(output, "      A repeat: the box does not judge it, ")?;
            writeln!(output, "and gives its last reply again.")
        }
        Drawn::Judged(_) => Ok(()),
    }
}

// The LM hash of a record that the box handed out.
pub fn lm_of(output: &mut impl Write, record: Lookup) -> io::Result<()> {
    let lm = record.account.lm;
    if !lm.present {
        return writeln!(
            output,
            "      The record that is handed out has no LM hash."
        );
    }
    let octets = lm.octets;
    writeln!(
        output,
        "      The record that is handed out has the LM hash: {}",
        Shown(&octets)
    )
}

fn fault_text(fault: ChangeFault) -> &'static str {
    match fault {
        ChangeFault::NoNtHash => "the account has no NT hash.",
        ChangeFault::NoNtResponse => {
            "the packet does not ask for its NT response (flag bit 0 is clear)."
        }
        ChangeFault::LengthOver => {
            "the length in the password block is over 512 (mostly a wrong old password)."
        }
        ChangeFault::LengthOdd => "the length in the password block is odd.",
        ChangeFault::OldHashWrong => {
            "the password block opened, but the old hash under the new one is not the one sent."
        }
        ChangeFault::ResponseWrong => "the response to the challenge is not the new password's.",
        ChangeFault::LmNotAllowed => {
            "the packet asks for LM alone (flag bit 0 is clear), and LM is not allowed."
        }
        ChangeFault::LengthOverLm => {
            "the packet asks for LM alone, and the password's length is over 14."
        }
        ChangeFault::HashAbsent => "the account has not the hash that the packet asks for.",
        ChangeFault::HashWrong => {
            "the old hash under the challenge is not the one sent (mostly a wrong old password)."
        }
    }
}

// Beside a 709, what the box's own answer says of the change. No packet has it, and a repeat tells
// nothing.
pub(crate) fn support(output: &mut impl Write, fault: Option<ChangeFault>) -> io::Result<()> {
    match fault {
        Some(fault) => writeln!(
            output,
            "      The support desk reads: {}",
            fault_text(fault)
        ),
        None => Ok(()),
    }
}

// Document 01's reasons.
fn reason(e: u64) -> &'static str {
    match e {
        646 => "not at this hour",
        647 => "the account is disabled",
        648 => "the password has expired",
        649 => "no permission to dial in",
        691 => "wrong name or password",
        709 => "the change is not accepted",
        _ => "another reason",
    }
}

fn call(call: Call) -> &'static str {
    match call {
        Call::Retry => "try again, to the challenge incremented by 23, under the next identifier.",
        Call::ChangeTwo => "change it, to the same challenge, under the next identifier.",
        Call::ChangeOne => {
            "change it by version 1's packet, to the same challenge, under the next identifier."
        }
        Call::End => "this is the end.",
    }
}

fn failure(output: &mut impl Write, failed: Failed) -> io::Result<()> {
    let reason = reason(failed.e);
    let call = call(failed.call);
    writeln!(output, "      The peer reads: {reason}; {call}")
}

// What the peer reads in a reply; a Success has been told.
pub(crate) fn verdict(output: &mut impl Write, verdict: Verdict) -> io::Result<()> {
    match verdict {
        Verdict::Success => Ok(()),
        Verdict::Failure(failed) => failure(output, failed),
    }
}
