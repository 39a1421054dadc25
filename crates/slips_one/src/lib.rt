// What students get wrong in the version 1 change: slips of docs/SLIPS.md. (A crate of its own, as
// the check of `slips` is long enough.)
#![tactic(auto)]

use loopback::{
    Loopback, Password, account, challenge, lm_of, old_hash, or_invalid, place, settings_for_one,
};
use std::io;
use std::io::Write;

fn new_hash() -> io::Result<[u8; 16]> {
    Password::New.nt_hash()
}

// Two fields, one behind the other.
fn joined(first: [u8; 16], second: [u8; 16]) -> [u8; 32] {
    octets::array_at([first, second].as_flattened(), 0)
}

// Both ends after 648, at a box that was opened for version 1's change.
fn expired(output: &mut impl Write) -> io::Result<Loopback> {
    let mut ends = Loopback::open(output, settings_for_one())?;
    ends.response(output, Password::Right, account(true)?)?;
    Ok(ends)
}

// The right change but for the NT fields, which a slip made otherwise.
fn slipped(output: &mut impl Write, slip: [u8; 32]) -> io::Result<()> {
    let mut ends = expired(output)?;
    let mut out = [0u8; 72];
    let wrote = ends.write_change_one(&mut out)?;
    place(output, "right,", 36, octets::part_of(&out, 36, 32))?;
    place(output, "slip, ", 36, &slip)?;
    octets::copy_at(&mut out, 36, &slip);
    let made = "The peer sends the version 1 change, but for the slip's octets.";
    ends.answered(output, wrote, &out, made, accounts::not_found())
}

// A.17's routine takes its keys from sixteen octets: the slip passes it the challenge, and zeros.
fn next_seven(output: &mut impl Write) -> io::Result<()> {
    writeln!(
        output,
        "\nSlip: the second half of a hash under the challenge's next seven octets, as in A.17."
    )?;
    writeln!(
        output,
        "   Both halves are under its first seven (A.9). The slip calls A.17's routine, with zeros"
    )?;
    writeln!(
        output,
        "   behind the challenge. Look at the second half of each hash: the first ones are right."
    )?;
    let keys = octets::array_at(&challenge(), 0);
    slipped(
        output,
        joined(
            credentials::old_under_new(old_hash()?, keys),
            credentials::old_under_new(new_hash()?, keys),
        ),
    )
}

fn new_before_old(output: &mut impl Write) -> io::Result<()> {
    writeln!(output, "\nSlip: the new hash before the old one.")?;
    writeln!(
        output,
        "   The old one comes first, of LM and of NT. Look at the two hashes from octet 36 on. Two"
    )?;
    writeln!(
        output,
        "   ends by one hand agree on the slip, until the first handset of another maker."
    )?;
    let challenge = challenge();
    slipped(
        output,
        joined(
            credentials::hash_under_challenge(new_hash()?, challenge),
            credentials::hash_under_challenge(old_hash()?, challenge),
        ),
    )
}

// The LM fields of a handset that sends both kinds of hashes.
fn lm_fields() -> io::Result<[u8; 32]> {
    let challenge = challenge();
    let old = or_invalid(credentials::lm_hash(b"MyPw"))?;
    let new = or_invalid(credentials::lm_hash(b"MyNewPw"))?;
    Ok(joined(
        credentials::hash_under_challenge(old, challenge),
        credentials::hash_under_challenge(new, challenge),
    ))
}

// The change of such a handset, with these octets for the new password's length.
fn with_length(
    output: &mut impl Write,
    mut ends: Loopback,
    length: [u8; 2],
    made: &str,
) -> io::Result<()> {
    let mut out = [0u8; 72];
    let wrote = ends.write_change_one(&mut out)?;
    octets::copy_at(&mut out, 4, &lm_fields()?);
    octets::copy_at(&mut out, 68, &length);
    ends.answered(output, wrote, &out, made, accounts::not_found())?;
    lm_of(output, ends.updated)
}

// The change draws Success either way: the record shows the slip.
fn least_first(output: &mut impl Write) -> io::Result<()> {
    writeln!(
        output,
        "\nSlip: the length of a version 1 change with its least significant octet first."
    )?;
    writeln!(
        output,
        "   A handset sends LM hashes too. The box takes the new one where the new password has at"
    )?;
    writeln!(
        output,
        "   most 14 characters: 'MyNewPw' has 7. Look at octets 68 and 69, and at the record."
    )?;
    let ends = expired(output)?;
    let right = "The handset sends LM and NT hashes, and the length as 0007.";
    with_length(output, ends, [0, 7], right)?;
    writeln!(
        output,
        "   In place of that, with the slip: the box reads 1792, and takes no LM hash. An old phone"
    )?;
    writeln!(output, "   that answers by LM is turned away from then on.")?;
    let slip = "The handset sends LM and NT hashes, and the length as 0700.";
    with_length(output, ends, [7, 0], slip)
}

pub fn all(output: &mut impl Write) -> io::Result<()> {
    next_seven(output)?;
    least_first(output)?;
    new_before_old(output)
}
