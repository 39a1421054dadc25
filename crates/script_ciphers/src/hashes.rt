// The commands of the password hashes, the challenge response, the sealed password, and a hash
// under another or under the challenge. Each writes its result.
use credentials::{Content, Unsealed};
use std::io;
use std::io::Write;

// Three lines for each hash: a function over the hash would have to ask of it that it takes any
// input, and be no plainer.

// nthash PASSWORD
fn nt_hash(output: &mut impl Write, line: &[u8]) -> io::Result<()> {
    let mut room = [0u8; 8192];
    let password = script::octets_in(line, 1, &mut room);
    script::put_result(output, credentials::nt_hash(password))
}

// lmhash PASSWORD
fn lm_hash(output: &mut impl Write, line: &[u8]) -> io::Result<()> {
    let mut room = [0u8; 8192];
    let password = script::octets_in(line, 1, &mut room);
    script::put_result(output, credentials::lm_hash(password))
}

// seal OLDHASH PASSWORD FILLER
fn seal(output: &mut impl Write, line: &[u8]) -> io::Result<()> {
    let mut password_room = [0u8; 8192];
    let password = script::octets_in(line, 2, &mut password_room);
    let mut filler_room = [0u8; 1024];
    let filler = script::octets_in(line, 3, &mut filler_room);
    let block = credentials::seal(script::octets(line, 1), password, filler);
    script::put_result(output, block)
}

// The length of a password, and the password, which is the last octets of those that were opened;
// or why there is none.
fn put_unsealed(output: &mut impl Write, unsealed: Unsealed) -> io::Result<()> {
    match unsealed.content {
        Content::Over => write!(output, " = over"),
        Content::Odd => write!(output, " = odd"),
        Content::Password(n) => {
            let octets = unsealed.octets;
            let password = octets::part_of(&octets, octets.len().saturating_sub(n), n);
            write!(output, " = {n} {}", script::Hex(password))
        }
    }
}

// Runs a line whose command is one of these.
pub(crate) fn run(output: &mut impl Write, line: &[u8]) -> io::Result<()> {
    match script::word(line, 0) {
        b"nthash" => nt_hash(output, line),
        b"lmhash" => lm_hash(output, line),
        // response HASH16 CHALLENGE8
        b"response" => script::put_octets(
            output,
            &credentials::challenge_response(script::octets(line, 1), script::octets(line, 2)),
        ),
        b"seal" => seal(output, line),
        // unseal OLDHASH BLOCK516
        b"unseal" => put_unsealed(
            output,
            credentials::unseal(script::octets(line, 1), script::octets(line, 2)),
        ),
        // oldnew OLDHASH NEWHASH
        b"oldnew" => script::put_octets(
            output,
            &credentials::old_under_new(script::octets(line, 1), script::octets(line, 2)),
        ),
        // underchallenge HASH CHALLENGE
        b"underchallenge" => script::put_octets(
            output,
            &credentials::hash_under_challenge(script::octets(line, 1), script::octets(line, 2)),
        ),
        // fromchallenge FIELD CHALLENGE
        b"fromchallenge" => script::put_octets(
            output,
            &credentials::hash_from_challenge(script::octets(line, 1), script::octets(line, 2)),
        ),
        _ => Ok(()),
    }
}
