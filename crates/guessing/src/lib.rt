// A slip of docs/SLIPS.md: a guesser who hangs up and calls back. The record goes from call to
// call, with its count. (A crate of its own, as the check of `slips` is long enough.)
#![tactic(auto)]

use authenticator::Settings;
use loopback::{
    IssuedList, Loopback, Password, account, another_challenge, settings, usual_settings,
};
use std::io;
use std::io::Write;

// A call: a box opens, with so many retries and a limit of 3, on the list that the one before left.
fn called(
    output: &mut impl Write,
    settings: Settings,
    retries: u8,
    list: IssuedList,
) -> io::Result<Loopback> {
    let settings = Settings {
        retries: Some(retries),
        limit: 3,
        ..settings
    };
    Loopback::open_on(output, settings, list)
}

// A wrong password, with the record that was handed out last.
fn wrongly_again(output: &mut impl Write, ends: &mut Loopback) -> io::Result<()> {
    ends.response(output, Password::Wrong, ends.updated)?;
    ends.say_failures(output)
}

// Two wrong passwords in a first call, and one in a second. Answers where that one leaves all.
fn guessed(output: &mut impl Write) -> io::Result<Loopback> {
    let mut first = called(output, usual_settings(), 1, IssuedList::empty())?;
    first.response(output, Password::Wrong, account(false)?)?;
    first.say_failures(output)?;
    wrongly_again(output, &mut first)?;
    writeln!(
        output,
        "   That was the last retry. The guesser hangs up and calls back:"
    )?;
    let mut second = called(output, settings(8, another_challenge()), 0, first.list)?;
    second.updated = first.updated;
    wrongly_again(output, &mut second)?;
    Ok(second)
}

// A third call, with the right password: turned away with the record that was handed out last, let
// in with the one before the first call, and let in once its count was cleared.
fn locked(output: &mut impl Write, ends: Loopback) -> io::Result<()> {
    writeln!(
        output,
        "   The account is locked. In a third call the right password draws the same Failure:"
    )?;
    let record = ends.updated;
    let third = called(output, settings(9, [9, 8, 7, 6, 5, 4, 3, 2]), 0, ends.list)?;
    let mut turned_away = third;
    turned_away.response(output, Password::Right, record)?;
    turned_away.say_failures(output)?;
    writeln!(
        output,
        "   In place of that, the slip: the record is passed as it was before the first call."
    )?;
    let mut slip = third;
    slip.response(output, Password::Right, account(false)?)?;
    writeln!(
        output,
        "   In place of that, once the keeper of the accounts has cleared the count:"
    )?;
    let unlocked = accounts::with_failures(record.account, 0);
    let mut let_in = third;
    let_in.response(output, Password::Right, accounts::found(unlocked))?;
    let_in.say_failures(output)
}

pub fn all(output: &mut impl Write) -> io::Result<()> {
    writeln!(
        output,
        "\nSlip: wrong passwords counted in each conversation alone."
    )?;
    writeln!(
        output,
        "   A guesser who hangs up and calls back has fresh retries, without end. Look at the"
    )?;
    writeln!(
        output,
        "   count: the box hands the record out after each Response, and the next is passed it."
    )?;
    let ends = guessed(output)?;
    locked(output, ends)
}
