// The peer's packets. Refusals go 8, 10, 12, 9; a refusal writes nothing.
ghost use Rattle.std.specs.Prelude.{◌≡◌};
ghost use Rattle.packets.specs.Frame.{written_as};
ghost use Rattle.peer.specs.Write.{response_fields_of, change_fields_of, change_one_fields_of};
ghost use Rattle.peer.specs.Write.{bad_passwords};
ghost use Rattle.peer.specs.Write.{write_response, write_change, write_change_one};

use crate::Turn;
use packets::{ANSWER_SIZE, BLOCK_SIZE, CHALLENGE_SIZE, Change, ChangeOne, HASH_SIZE, Response};
use refusals::Refusal;

// The Response from an NT hash. The LM response is zero-filled.
fn response_fields(hash: [u8; HASH_SIZE], challenge: [u8; CHALLENGE_SIZE]) -> Response
    ensures { result ≡ response_fields_of challenge hash }
{
    Response {
        lm: [0; ANSWER_SIZE],
        nt: credentials::challenge_response(hash, challenge),
        flag: 1,
    }
}

// Writes a Response from a password at the front of out. Refusal 8: the password; 10: the name; 9:
// too little room.
pub(crate) fn write_response(
    turn: Turn,
    password: &[u8],
    name: &[u8],
    out: &mut [u8],
) -> Result<usize, Refusal>
    ensures answer { written_as result
        ≡ (write_response turn password.now name.now out.old).answer }
    ensures out { out.new ≡ (write_response turn password.now name.now out.old).out }
{
    let hash = credentials::nt_hash(password)?;
    let fields = response_fields(hash, turn.challenge);
    packets::write_response(turn.id, fields, name, out)
}

// The version 2 change from both NT hashes and the sealed new password. The response is that of the
// new hash. The LM fields are zero-filled.
fn change_fields(
    old: [u8; HASH_SIZE],
    new: [u8; HASH_SIZE],
    block: [u8; BLOCK_SIZE],
    challenge: [u8; CHALLENGE_SIZE],
) -> Change
    ensures { result ≡ change_fields_of challenge old new block }
{
    let nt = credentials::challenge_response(new, challenge);
    Change {
        block,
        verifier: credentials::old_under_new(old, new),
        lmblock: [0; BLOCK_SIZE],
        lmverifier: [0; HASH_SIZE],
        lm: [0; ANSWER_SIZE],
        nt,
        flags: 1,
    }
}

// One of the two passwords of a change is refused. Its writers ask this first, and for the filler, so
// that no password is hashed for a change that these refuse.
fn are_bad_passwords(old: &[u8], new: &[u8]) -> bool
    ensures { result ≡ bad_passwords old.now new.now }
{
    credentials::is_bad_nt_password(old) || credentials::is_bad_nt_password(new)
}

// Writes a version 2 change from the old and the new password at the front of out. Refusal 8:
// either password; 12: the filler; 9: too little room.
pub(crate) fn write_change(
    turn: Turn,
    old: &[u8],
    new: &[u8],
    filler: &[u8],
    out: &mut [u8],
) -> Result<usize, Refusal>
    ensures answer { written_as result
        ≡ (write_change turn old.now new.now filler.now out.old).answer }
    ensures out { out.new ≡ (write_change turn old.now new.now filler.now out.old).out }
{
    if are_bad_passwords(old, new) {
        return Err(Refusal::Input);
    }
    if credentials::is_bad_filler(filler) {
        return Err(Refusal::Filler);
    }
    let before = credentials::nt_hash(old)?;
    let after = credentials::nt_hash(new)?;
    let block = credentials::seal(before, new, filler)?;
    let fields = change_fields(before, after, block, turn.challenge);
    packets::write_change(turn.id, fields, out)
}

// The version 1 change from both NT hashes, each under the challenge. The LM fields are
// zero-filled, and the length is one with which no LM hash is taken.
fn change_one_fields(
    old: [u8; HASH_SIZE],
    new: [u8; HASH_SIZE],
    challenge: [u8; CHALLENGE_SIZE],
) -> ChangeOne
    ensures { result ≡ change_one_fields_of challenge old new }
{
    ChangeOne {
        lmold: [0; HASH_SIZE],
        lmnew: [0; HASH_SIZE],
        ntold: credentials::hash_under_challenge(old, challenge),
        ntnew: credentials::hash_under_challenge(new, challenge),
        length: 65535,
        flags: 1,
    }
}

// Writes a version 1 change from the old and the new password at the front of out. Refusal 8:
// either password; 9: too little room.
pub(crate) fn write_change_one(
    turn: Turn,
    old: &[u8],
    new: &[u8],
    out: &mut [u8],
) -> Result<usize, Refusal>
    ensures answer { written_as result
        ≡ (write_change_one turn old.now new.now out.old).answer }
    ensures out { out.new ≡ (write_change_one turn old.now new.now out.old).out }
{
    if are_bad_passwords(old, new) {
        return Err(Refusal::Input);
    }
    let before = credentials::nt_hash(old)?;
    let after = credentials::nt_hash(new)?;
    let fields = change_one_fields(before, after, turn.challenge);
    packets::write_change_one(turn.id, fields, out)
}
