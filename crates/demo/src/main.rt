// A box (the authenticator) and a peer talk: the six exchanges of RFC 2433, B.1, a reply that is
// missed, a change that is not accepted, a version 1 change, and the slips that cost weeks. Each
// packet is a line: who sends it, its kind, its identifier and its octets; a sentence says what it
// means.
#![tactic(auto)]

mod exchanges;

use std::io;
use std::io::Write;

// What a student needs to read the rest.
fn key(output: &mut impl Write) -> io::Result<()> {
    writeln!(
        output,
        "A box (the authenticator) and a peer talk MS-CHAP version 1: the six exchanges of"
    )?;
    writeln!(
        output,
        "RFC 2433, B.1, a reply that is missed, a change that is not accepted, a version 1"
    )?;
    writeln!(
        output,
        "change, and 16 slips, each with what to look at. The account is BENCH\\user; its"
    )?;
    writeln!(
        output,
        "password is 'MyPw', a wrong one 'bad', a new one 'MyNewPw'."
    )?;
    writeln!(
        output,
        "<- is a packet of the box, -> one of the peer, with its first 72 octets in hexadecimal."
    )?;
    writeln!(
        output,
        "Octets are counted from 0. Behind code, identifier and Length (two octets) a packet has"
    )?;
    writeln!(
        output,
        "   Challenge        08, and from octet 5 on the challenge: eight octets to be answered"
    )?;
    writeln!(
        output,
        "   Response         31, the LM response, the NT response (from octet 29 on), flag, name"
    )?;
    writeln!(
        output,
        "   Failure          a message: E why, R=1 if a retry is allowed, V the change's version"
    )?;
    writeln!(
        output,
        "   Change Password  code 6: the sealed new password; from octet 1092 on the NT response"
    )?;
    writeln!(
        output,
        "                    code 5, version 1: old and new LM hash, old and new NT hash (from"
    )?;
    writeln!(
        output,
        "                    octet 36 on), the new password's length (at 68), flags"
    )?;
    writeln!(
        output,
        "Beside a 709 the box tells the support desk what was wrong, and the peer nothing of it."
    )?;
    writeln!(
        output,
        "Each box is passed an empty list of issued challenges; in the first slip two share one."
    )
}

fn main(rt: HostRuntime) -> io::Result<()> {
    let mut output = rt.stdout();
    key(&mut output)?;
    exchanges::all(&mut output)?;
    slips::all(&mut output)?;
    slips_one::all(&mut output)?;
    guessing::all(&mut output)
}
