// The commands of the peer: what it reads in a Failure message and in packets, and what it writes.
#![tactic(auto)]

mod failures;
mod peers;

use std::io;
use std::io::Write;

// Writes the result of a line whose command is one of these; writes nothing for any other.
pub fn run(output: &mut impl Write, line: &[u8]) -> io::Result<()> {
    match script::word(line, 0) {
        b"failure" => failures::failure(output, line),
        b"challenge" => peers::challenge(output, line),
        b"reply" => peers::reply(output, line),
        b"turn" => peers::turn(output, line),
        b"writeresponse" => peers::response(output, line),
        b"writechange" => peers::change(output, line),
        b"writechange1" => peers::change_one(output, line),
        _ => Ok(()),
    }
}
