// Lines of published vectors: the words that are given, as they stood, and those that are computed.
use script::{Hex, Keys};
use std::io;
use std::io::Write;

// Word k as it stood, and a space.
fn put_given(output: &mut impl Write, line: &[u8], k: usize) -> io::Result<()> {
    output.write_all(script::word(line, k))?;
    write!(output, " ")
}

// INPUT DIGEST
pub fn md4_line(output: &mut impl Write, line: &[u8]) -> io::Result<()> {
    put_given(output, line, 0)?;
    let mut room = [0u8; 8192];
    match md4::md4(script::octets_in(line, 0, &mut room)) {
        Ok(digest) => write!(output, "{}", Hex(&digest)),
        Err(refusal) => write!(output, "refused {refusal}"),
    }
}

// KEY OFFSET STREAM16: of the first 8,192 octets of the keystream, 16 from the offset on.
pub fn rc4_line(output: &mut impl Write, line: &[u8]) -> io::Result<()> {
    put_given(output, line, 0)?;
    put_given(output, line, 1)?;
    let mut room = [0u8; 1024];
    let key = script::octets_in(line, 0, &mut room);
    let mut stream = [0u8; 8192];
    let offset = script::number(script::word(line, 1));
    match rc4::rc4(key, &mut stream) {
        Ok(()) => write!(output, "{}", Hex(octets::part_of(&stream, offset, 16))),
        Err(refusal) => write!(output, "refused {refusal}"),
    }
}

// KEY8 PLAIN CIPHER
pub fn des_line(output: &mut impl Write, line: &[u8]) -> io::Result<()> {
    put_given(output, line, 0)?;
    let key = des::drop_parity(script::octets(line, 0));
    let cipher = des::encrypt(key, script::octets(line, 1));
    let plain = des::decrypt(key, cipher);
    write!(output, "{} {}", Hex(&plain), Hex(&cipher))
}

// KEYS CHALLENGE NUMBERS RESPONSE
pub fn keys_line(output: &mut impl Write, line: &[u8]) -> io::Result<()> {
    put_given(output, line, 0)?;
    put_given(output, line, 1)?;
    // the schedules of a hash, or the numbers themselves
    let keys = if script::names_hash(line, 0) {
        credentials::hash_schedules(script::octets(line, 0))
    } else {
        script::numbers(line, 0)
    };
    let lent = credentials::key_octets(keys);
    let response = credentials::scheduled_response(&lent, script::octets(line, 1));
    write!(output, "{} {}", Keys(keys), Hex(&response))
}
