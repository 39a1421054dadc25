// What students get wrong, and what the box does: the slips of docs/SLIPS.md.
#![tactic(auto)]

use accounts::Lookup;
use authenticator::Settings;
use loopback::{
    IssuedList, Loopback, Password, account, another_challenge, challenge, next_challenge,
    old_hash, or_invalid, place, settings, usual_settings,
};
use std::io;
use std::io::Write;

// ---- the challenge

// A second box, on the list that the first was passed: neither its challenge nor the next one,
// which a retry would answer, can be had again. A refused opening leaves the list as it was.
fn refused_twice(output: &mut impl Write, list: IssuedList) -> io::Result<()> {
    writeln!(
        output,
        "   A second box on the same list, with the same challenge, and with the one that a retry"
    )?;
    writeln!(output, "   at the first would answer:")?;
    Loopback::try_open(output, usual_settings(), list)?;
    let settings = Settings {
        retries: Some(0),
        ..settings(7, challenges::incremented(challenge()))
    };
    Loopback::try_open(output, settings, list)?;
    Ok(())
}

// Whoever recorded a Response answers too, and sends the recorded one in place of his own.
fn replay(output: &mut impl Write, mut ends: Loopback, recorded: &[u8]) -> io::Result<()> {
    let mut out = [0u8; 310];
    let wrote = ends.write_response(Password::Wrong, &mut out)?;
    let made = "The recorded Response: from the right password, to the first box's challenge.";
    ends.answered(output, wrote, recorded, made, account(false)?)
}

// With a challenge of its own it opens.
fn with_its_own(output: &mut impl Write, list: IssuedList, recorded: &[u8]) -> io::Result<()> {
    writeln!(
        output,
        "   With a challenge of its own it opens, and the recorded Response is a wrong one there:"
    )?;
    let ends = Loopback::open_on(output, settings(7, another_challenge()), list)?;
    ends.list.say(output)?;
    replay(output, ends, recorded)
}

// The first box on the list: its Response is recorded in out. Answers the list.
fn first_on_list(output: &mut impl Write, out: &mut [u8]) -> io::Result<IssuedList> {
    let mut ends = Loopback::open(output, usual_settings())?;
    ends.list.say(output)?;
    let wrote = ends.write_response(Password::Right, out)?;
    let made = "The peer answers from the right password. Somebody on the line records this.";
    ends.answered(output, wrote, out, made, account(false)?)?;
    Ok(ends.list)
}

// Boxes on one list, as a controller passes it.
fn shared(output: &mut impl Write) -> io::Result<()> {
    writeln!(output, "\nSlip: one challenge shared by two boxes.")?;
    writeln!(
        output,
        "   A Response recorded at the first is accepted by the second. Look at the challenges:"
    )?;
    writeln!(
        output,
        "   here the second box does not open with any that stands in the list."
    )?;
    let mut recorded = [0u8; 310];
    let list = first_on_list(output, &mut recorded)?;
    refused_twice(output, list)?;
    with_its_own(output, list, &recorded)
}

// A retry from the right password, to the challenge that a carry makes.
fn carried(output: &mut impl Write, mut ends: Loopback, slip: [u8; 8]) -> io::Result<()> {
    writeln!(
        output,
        "   In place of that, the same retry by a peer that carries: it has the right password,"
    )?;
    writeln!(output, "   and is turned away.")?;
    let mut out = [0u8; 310];
    let wrote = ends.write_response(Password::Right, &mut out)?;
    let response = credentials::challenge_response(old_hash()?, slip);
    octets::copy_at(&mut out, 29, &response);
    let made = "The peer answers from the right password, to the slip's challenge.";
    ends.answered(output, wrote, &out, made, account(false)?)
}

fn carry(output: &mut impl Write) -> io::Result<()> {
    writeln!(
        output,
        "\nSlip: a carry out of the challenge's first octet."
    )?;
    writeln!(
        output,
        "   A retry answers the challenge with its first octet incremented by 23 modulo 256: E9"
    )?;
    writeln!(
        output,
        "   becomes 00, and the other seven stay. Look at the second octet of the next challenge."
    )?;
    let first = [0xe9, 2, 3, 4, 5, 6, 7, 8];
    let slip = [0, 3, 3, 4, 5, 6, 7, 8];
    let settings = Settings {
        retries: Some(1),
        ..settings(9, first)
    };
    let record = account(false)?;
    let mut ends = Loopback::open(output, settings)?;
    ends.response(output, Password::Wrong, record)?;
    next_challenge(output, "right,", challenges::incremented(first))?;
    next_challenge(output, "slip, ", slip)?;
    let mut rightly = ends;
    rightly.response(output, Password::Right, record)?;
    carried(output, ends, slip)
}

// ---- the Response

fn disabled_account() -> io::Result<Lookup> {
    let nt = accounts::hash_of(old_hash()?);
    let lm = accounts::no_hash();
    Ok(accounts::found(accounts::account_with(nt, lm, true, false, false, false)))
}

// An opening with so many retries.
fn opening_with(output: &mut impl Write, retries: u8) -> io::Result<Loopback> {
    let settings = Settings {
        retries: Some(retries),
        ..settings(1, [1, 2, 3, 4, 5, 6, 7, 8])
    };
    Loopback::open(output, settings)
}

fn disabled(output: &mut impl Write) -> io::Result<()> {
    writeln!(
        output,
        "\nSlip: a disabled account reported before the password was checked."
    )?;
    writeln!(
        output,
        "   Look at the messages: a wrong password draws E=691 R=1 V=2, only the right one E=647."
    )?;
    writeln!(
        output,
        "   With the slip a wrong one draws E=647 R=0 V=2, and a guesser learns of the account."
    )?;
    let lookup = disabled_account()?;
    let mut ends = opening_with(output, 1)?;
    ends.response(output, Password::Wrong, lookup)?;
    ends.response(output, Password::Right, lookup)
}

fn unknown(output: &mut impl Write) -> io::Result<()> {
    writeln!(
        output,
        "\nSlip: an unknown account told apart from a wrong password."
    )?;
    writeln!(
        output,
        "   Look at the two Failures: octet for octet the same. No account has the name:"
    )?;
    let mut absent = opening_with(output, 0)?;
    absent.response(output, Password::Wrong, accounts::not_found())?;
    writeln!(
        output,
        "   The account is there, and the password is wrong:"
    )?;
    let mut present = opening_with(output, 0)?;
    present.response(output, Password::Wrong, account(false)?)
}

// The LM hash of the right password, and its response to the usual challenge.
fn lm_hash() -> io::Result<[u8; 16]> {
    or_invalid(credentials::lm_hash(b"MyPw"))
}

fn lm_response() -> io::Result<[u8; 24]> {
    Ok(credentials::challenge_response(lm_hash()?, challenge()))
}

// The account with an LM hash too.
fn account_with_lm() -> io::Result<Lookup> {
    let nt = accounts::hash_of(old_hash()?);
    let lm = accounts::hash_of(lm_hash()?);
    Ok(accounts::found(accounts::account_with(nt, lm, false, false, false, false)))
}

// A box with no retries, and what it was told of LM.
fn opening_for(output: &mut impl Write, lm: Option<bool>) -> io::Result<Loopback> {
    let settings = Settings {
        retries: Some(0),
        lm,
        ..usual_settings()
    };
    Loopback::open(output, settings)
}

// A wrong password, with another LM response than the zeros that our peer writes.
fn wrongly_with_lm(output: &mut impl Write, mut ends: Loopback) -> io::Result<()> {
    let lm = lm_response()?;
    let mut out = [0u8; 310];
    let wrote = ends.write_response(Password::Wrong, &mut out)?;
    octets::copy_at(&mut out, 5, &lm);
    place(output, "the right LM response", 5, &lm)?;
    let made = "The peer answers from a wrong password, with the right LM response beside it.";
    ends.answered(output, wrote, &out, made, account_with_lm()?)
}

// The Response has a wrong NT response and the right LM response. The box was asked for LM: one
// that does not judge LM would turn it away with the slip too.
fn fallback(output: &mut impl Write) -> io::Result<()> {
    writeln!(
        output,
        "\nSlip: falling back to LM when the NT response is wrong."
    )?;
    writeln!(
        output,
        "   With flag 1 the LM response is not looked at, even by a box that judges LM. Look at"
    )?;
    writeln!(
        output,
        "   the reply: the slip would send Success, 03070004."
    )?;
    let ends = opening_for(output, Some(true))?;
    wrongly_with_lm(output, ends)
}

// An old phone's Response: the right LM response, no NT response, and the flag 0.
fn by_lm_alone(output: &mut impl Write, mut ends: Loopback) -> io::Result<()> {
    let nothing = [0u8; 25];
    let mut out = [0u8; 310];
    let wrote = ends.write_response(Password::Wrong, &mut out)?;
    octets::copy_at(&mut out, 5, &lm_response()?);
    octets::copy_at(&mut out, 29, &nothing);
    let made = "An old phone answers from the right password, by LM alone: octet 53 is 00.";
    ends.answered(output, wrote, &out, made, account_with_lm()?)
}

fn unasked(output: &mut impl Write) -> io::Result<()> {
    writeln!(output, "\nSlip: LM judged though nobody asked for it.")?;
    writeln!(
        output,
        "   The flag, octet 53, says which response is meant: 00 is LM, the weak one. This box"
    )?;
    writeln!(
        output,
        "   was told nothing of LM. Look at the reply: the slip would send Success, 03070004."
    )?;
    let silent = opening_for(output, None)?;
    by_lm_alone(output, silent)?;
    writeln!(
        output,
        "   A bench with old phones asks for LM when it opens. The same Response there:"
    )?;
    let asked = opening_for(output, Some(true))?;
    by_lm_alone(output, asked)
}

// A guess under the identifier that was answered, and then the retry, both from the right password.
fn judged_again(output: &mut impl Write) -> io::Result<()> {
    writeln!(output, "\nSlip: a repeated Response judged again.")?;
    writeln!(
        output,
        "   A repeat draws the last reply again, whatever is in it. Look at the reply to it: the"
    )?;
    writeln!(
        output,
        "   slip would send Success, 03070004, and one identifier would do for any number of"
    )?;
    writeln!(output, "   guesses.")?;
    let settings = Settings {
        retries: Some(1),
        ..usual_settings()
    };
    let record = account(false)?;
    let mut ends = Loopback::open(output, settings)?;
    let peer = ends.peer;
    ends.response(output, Password::Wrong, record)?;
    writeln!(
        output,
        "   The next guess, under the identifier that was answered, is the right password:"
    )?;
    ends.peer = peer;
    ends.response(output, Password::Right, record)?;
    writeln!(
        output,
        "   The conversation is where it was, and the retry is still left:"
    )?;
    ends.response(output, Password::Right, record)
}

// ---- the change

// The right change but for the octets from a place on, which a slip made otherwise.
fn slipped(output: &mut impl Write, at: usize, slip: &[u8]) -> io::Result<()> {
    let mut ends = Loopback::open(output, usual_settings())?;
    ends.response(output, Password::Right, account(true)?)?;
    let mut out = [0u8; 1118];
    let wrote = ends.write_change(Password::Right, &mut out)?;
    place(output, "right,", at, octets::part_of(&out, at, slip.len()))?;
    place(output, "slip, ", at, slip)?;
    octets::copy_at(&mut out, at, slip);
    let made = "The peer sends the change of B.1.5, but for the slip's octets.";
    ends.answered(output, wrote, &out, made, accounts::not_found())
}

fn by_old_hash(output: &mut impl Write) -> io::Result<()> {
    writeln!(
        output,
        "\nSlip: a change's response made from the old password."
    )?;
    writeln!(
        output,
        "   It is the new one's. Look at the 24 octets: the slip's are those of the Response."
    )?;
    let response = credentials::challenge_response(old_hash()?, challenge());
    slipped(output, 1092, &response)
}

fn second_key(output: &mut impl Write) -> io::Result<()> {
    writeln!(
        output,
        "\nSlip: A.17's second key taken as the new hash's first seven octets again."
    )?;
    writeln!(
        output,
        "   It is the next seven. Look at the second half of the old hash under the new one."
    )?;
    let old = old_hash()?;
    let new = Password::New.nt_hash()?;
    let half = des::encrypt(octets::array_at(&new, 0), octets::array_at(&old, 8));
    slipped(output, 528, &half)
}

fn anew(output: &mut impl Write) -> io::Result<()> {
    writeln!(
        output,
        "\nSlip: RC4 started anew for the four length octets."
    )?;
    writeln!(
        output,
        "   One run goes over all 516. Look at the last four octets of the sealed password."
    )?;
    let mut length = [14u8, 0, 0, 0];
    or_invalid(rc4::rc4(&old_hash()?, &mut length))?;
    slipped(output, 516, &length)
}

fn in_characters(output: &mut impl Write) -> io::Result<()> {
    writeln!(
        output,
        "\nSlip: the length of the new password counted in characters."
    )?;
    writeln!(
        output,
        "   'MyNewPw' has 14 octets, and 7 characters. Look at the length: an odd one is no"
    )?;
    writeln!(
        output,
        "   password's, and the support desk knows that it is the handset."
    )?;
    let mut block = [0u8; 516];
    block[512] = 7;
    or_invalid(rc4::rc4(&old_hash()?, &mut block))?;
    slipped(output, 516, octets::part_of(&block, 512, 4))
}

fn incremented(output: &mut impl Write) -> io::Result<()> {
    writeln!(output, "\nSlip: the challenge incremented after 648.")?;
    writeln!(
        output,
        "   A change answers the challenge of the last Response. Look at the change's response."
    )?;
    let next = challenges::incremented(challenge());
    let response = credentials::challenge_response(Password::New.nt_hash()?, next);
    slipped(output, 1092, &response)
}

pub fn all(output: &mut impl Write) -> io::Result<()> {
    shared(output)?;
    carry(output)?;
    disabled(output)?;
    unknown(output)?;
    fallback(output)?;
    unasked(output)?;
    judged_again(output)?;
    by_old_hash(output)?;
    second_key(output)?;
    anew(output)?;
    in_characters(output)?;
    incremented(output)
}
