// The command of the Failure message, and its fields.
use message::{Call, Failed};
use std::io;
use std::io::Write;

fn word_of(call: Call) -> &'static str {
    match call {
        Call::Retry => "retry",
        Call::ChangeTwo => "change2",
        Call::ChangeOne => "change1",
        Call::End => "end",
    }
}

// E R C V CALL, with `-` for a C that is not given.
pub(crate) fn put_failed(output: &mut impl Write, failed: Failed) -> io::Result<()> {
    let call = word_of(failed.call);
    let Failed { e, r, v, .. } = failed;
    match failed.c {
        Some(c) => write!(output, "{e} {r} {} {v} {call}", script::Hex(&c)),
        None => write!(output, "{e} {r} - {v} {call}"),
    }
}

// failure MESSAGE
pub(crate) fn failure(output: &mut impl Write, line: &[u8]) -> io::Result<()> {
    let mut room = [0u8; 1024];
    match message::read(script::octets_in(line, 1, &mut room)) {
        Ok(failed) => {
            write!(output, " = ")?;
            put_failed(output, failed)
        }
        Err(refusal) => write!(output, " = refused {refusal}"),
    }
}
