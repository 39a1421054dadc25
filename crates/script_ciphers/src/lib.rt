// The commands of MD4, RC4 and DES, and those of the password hashes, the challenge response, the
// sealed password and an encrypted hash; and the lines of published vectors.
#![tactic(auto)]

mod ciphers;
mod hashes;
mod published;

pub use published::{des_line, keys_line, md4_line, rc4_line};
use std::io;
use std::io::Write;

// Writes the result of a line whose command is one of these; writes nothing for any other.
pub fn run(output: &mut impl Write, line: &[u8]) -> io::Result<()> {
    ciphers::run(output, line)?;
    hashes::run(output, line)
}
