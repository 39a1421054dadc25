// The commands of MD4, RC4 and DES. Each writes its result.
use std::io;
use std::io::Write;

// md4 INPUT
fn digest(output: &mut impl Write, line: &[u8]) -> io::Result<()> {
    let mut room = [0u8; 8192];
    let input = script::octets_in(line, 1, &mut room);
    script::put_result(output, md4::md4(input))
}

// rc4 KEY DATA: the result is what the data then hold, behind the refusal where there is one.
fn crypt(output: &mut impl Write, line: &[u8]) -> io::Result<()> {
    let mut key_room = [0u8; 1024];
    let key = script::octets_in(line, 1, &mut key_room);
    let mut room = [0u8; 4096];
    let data = script::octets_in(line, 2, &mut room);
    match rc4::rc4(key, data) {
        Ok(()) => write!(output, " = {}", script::Hex(data)),
        Err(refusal) => write!(output, " = refused {refusal} {}", script::Hex(data)),
    }
}

// Runs a line whose command is one of these.
pub(crate) fn run(output: &mut impl Write, line: &[u8]) -> io::Result<()> {
    match script::word(line, 0) {
        b"md4" => digest(output, line),
        b"rc4" => crypt(output, line),
        // des KEY7 BLOCK
        b"des" => script::put_octets(
            output,
            &des::encrypt(script::octets(line, 1), script::octets(line, 2)),
        ),
        // undes KEY7 BLOCK
        b"undes" => script::put_octets(
            output,
            &des::decrypt(script::octets(line, 1), script::octets(line, 2)),
        ),
        // desthree KEY21 BLOCK
        b"desthree" => script::put_octets(
            output,
            &des::encrypt_three(script::octets(line, 1), script::octets(line, 2)),
        ),
        // expand KEY7
        b"expand" => script::put_octets(output, &des::expand_key(script::octets(line, 1))),
        // dropparity KEY8
        b"dropparity" => script::put_octets(output, &des::drop_parity(script::octets(line, 1))),
        _ => Ok(()),
    }
}
