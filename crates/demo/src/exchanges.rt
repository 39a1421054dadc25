// The six exchanges of RFC 2433, B.1, a Success that did not arrive, a change that is not accepted,
// and a version 1 change.
use accounts::Lookup;
use authenticator::Settings;
use loopback::{
    Loopback, Password, account, another_challenge, challenge, settings, settings_for_one,
    usual_settings,
};
use std::io;
use std::io::Write;

fn successful(output: &mut impl Write) -> io::Result<()> {
    writeln!(output, "\nB.1.1 Successful authentication")?;
    let mut ends = Loopback::open(output, usual_settings())?;
    ends.response(output, Password::Right, account(false)?)
}

fn failed(output: &mut impl Write) -> io::Result<()> {
    writeln!(
        output,
        "\nB.1.2 Failed authentication with no retry allowed"
    )?;
    let settings = Settings {
        retries: Some(0),
        ..usual_settings()
    };
    let mut ends = Loopback::open(output, settings)?;
    ends.response(output, Password::Wrong, account(false)?)
}

fn retried(output: &mut impl Write) -> io::Result<()> {
    writeln!(output, "\nB.1.3 Successful authentication after retry")?;
    let mut ends = Loopback::open(output, settings(255, challenge()))?;
    ends.response(output, Password::Wrong, account(false)?)?;
    ends.response(output, Password::Right, account(false)?)
}

fn attacked(output: &mut impl Write) -> io::Result<()> {
    writeln!(output, "\nB.1.4 Failed hack attack with 3 attempts allowed")?;
    let mut ends = Loopback::open(output, usual_settings())?;
    for _ in 0..3 {
        ends.response(output, Password::Wrong, account(false)?)?;
    }
    Ok(())
}

// A later conversation, with the record that a change handed out.
fn later(output: &mut impl Write, record: Lookup) -> io::Result<()> {
    writeln!(
        output,
        "   The box hands out a record with the new password's hash. In a later conversation:"
    )?;
    let mut ends = Loopback::open(output, settings(8, another_challenge()))?;
    ends.response(output, Password::New, record)
}

fn changed(output: &mut impl Write) -> io::Result<()> {
    writeln!(
        output,
        "\nB.1.5 Successful authentication with password change"
    )?;
    let mut ends = Loopback::open(output, usual_settings())?;
    ends.response(output, Password::Right, account(true)?)?;
    ends.change(output, Password::Right)?;
    later(output, ends.updated)
}

fn retried_and_changed(output: &mut impl Write) -> io::Result<()> {
    writeln!(
        output,
        "\nB.1.6 Successful authentication with retry and password change"
    )?;
    let mut ends = Loopback::open(output, usual_settings())?;
    ends.response(output, Password::Wrong, account(true)?)?;
    ends.response(output, Password::Right, account(true)?)?;
    ends.change(output, Password::Right)
}

// The peer has the same octets to send: it is where it was.
fn missed(output: &mut impl Write) -> io::Result<()> {
    writeln!(output, "\nA Success that did not arrive")?;
    let mut ends = Loopback::open(output, usual_settings())?;
    let peer = ends.peer;
    ends.response(output, Password::Right, account(false)?)?;
    writeln!(
        output,
        "   The peer does not hear it, and sends its Response again:"
    )?;
    ends.peer = peer;
    ends.response(output, Password::Right, account(false)?)
}

// The change is sent twice: a repeat is not judged, and only the first answer says why.
fn refused_change(output: &mut impl Write) -> io::Result<()> {
    writeln!(output, "\nA change from a wrong old password")?;
    let mut ends = Loopback::open(output, usual_settings())?;
    ends.response(output, Password::Right, account(true)?)?;
    let peer = ends.peer;
    ends.change(output, Password::Wrong)?;
    writeln!(
        output,
        "   The peer does not hear it, and sends its change again. The box judges it once, and"
    )?;
    writeln!(output, "   says once what is wrong:")?;
    ends.peer = peer;
    ends.change(output, Password::Wrong)
}

// As B.1.5, at a box for handsets that know no other change.
fn changed_by_one(output: &mut impl Write) -> io::Result<()> {
    writeln!(
        output,
        "\nA version 1 change: for handsets that know no other"
    )?;
    let mut ends = Loopback::open(output, settings_for_one())?;
    ends.response(output, Password::Right, account(true)?)?;
    ends.change_one(output)?;
    later(output, ends.updated)
}

pub(crate) fn all(output: &mut impl Write) -> io::Result<()> {
    successful(output)?;
    failed(output)?;
    retried(output)?;
    attacked(output)?;
    changed(output)?;
    retried_and_changed(output)?;
    missed(output)?;
    refused_change(output)?;
    changed_by_one(output)
}
