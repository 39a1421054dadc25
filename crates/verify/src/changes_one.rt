// Whether a version 1 change of the password is accepted, and what is wrong with one that is not.
// The kept record decides.
//
// Bit 0 of the flags and the length, which were sent in clear, choose the way; on either way every
// test is made, so that the time does not tell what is wrong. Old hashes are compared encrypted,
// new ones decrypted: which way has no effect (credentials UnderChallenge `either_way`).
ghost use Rattle.std.specs.Prelude.{◌≡◌, cond, not};
ghost use Rattle.accounts.specs.Account.{no_hash};
ghost use Rattle.verify.specs.Faults.{first_fault_one};
ghost use Rattle.verify.specs.Change.{checked_as, checked_with};
ghost use Rattle.verify.specs.ChangeOne.{bad_old, new_in, nt_fault, checked_change_one};

use crate::changes::{checked_with, is_same_hash};
use crate::{ChangeFault, NewHashes, Terms};
use accounts::{Entry, Hash, hash_of, no_hash};
use credentials::{HASH_SIZE, LONGEST_LM};
use packets::ChangeOne;

// The first fault, by whether each of them holds.
fn first_fault(lm: bool, over: bool, absent: bool, wrong: bool) -> Option<ChangeFault>
    ensures { result ≡ first_fault_one lm over absent wrong }
{
    let absent = absent.then_some(ChangeFault::HashAbsent);
    let hash = absent.or(wrong.then_some(ChangeFault::HashWrong));
    let length = over.then_some(ChangeFault::LengthOverLm).or(hash);
    lm.then_some(ChangeFault::LmNotAllowed).or(length)
}

// Whether the kept hash, under the challenge in force, is not the field that was sent.
fn is_bad_old(hash: Hash, challenge: [u8; 8], field: [u8; HASH_SIZE]) -> bool
    ensures { result ≡ bad_old hash challenge field }
{
    let octets = hash.octets;
    !is_same_hash(field, credentials::hash_under_challenge(octets, challenge))
}

// The new hash that a field holds.
fn new_in(challenge: [u8; 8], field: [u8; HASH_SIZE]) -> Hash
    ensures { result ≡ new_in challenge field }
{
    hash_of(credentials::hash_from_challenge(field, challenge))
}

// None where a test holds, and else the hash.
fn none_if(test: bool, hash: Hash) -> Hash
    ensures { result ≡ cond test no_hash hash }
{
    if test { no_hash() } else { hash }
}

// Bit 0 is set: the NT fields count, and the new LM hash goes with them unless the length is over.
fn check_nt(
    kept: Entry,
    challenge: [u8; 8],
    fields: ChangeOne,
    over: bool,
) -> Result<NewHashes, ChangeFault>
    ensures { checked_as result ≡ checked_with (nt_fault kept challenge fields)
        (new_in challenge fields.ntnew) (cond over no_hash (new_in challenge fields.lmnew)) }
{
    let hash = kept.nt;
    let old = fields.ntold;
    let new = fields.ntnew;
    let lm_new = fields.lmnew;
    let wrong = is_bad_old(hash, challenge, old);
    let nt = new_in(challenge, new);
    let lm = none_if(over, new_in(challenge, lm_new));
    checked_with(first_fault(false, false, !hash.present, wrong), nt, lm)
}

// Bit 0 is clear: the LM fields count alone.
fn check_lm(
    terms: Terms,
    kept: Entry,
    challenge: [u8; 8],
    fields: ChangeOne,
    over: bool,
) -> Result<NewHashes, ChangeFault>
    ensures { checked_as result ≡ checked_with (first_fault_one (not terms.lm) over
        (not kept.lm.present) (bad_old kept.lm challenge fields.lmold))
        no_hash (new_in challenge fields.lmnew) }
{
    let hash = kept.lm;
    let old = fields.lmold;
    let new = fields.lmnew;
    let wrong = is_bad_old(hash, challenge, old);
    let lm = new_in(challenge, new);
    let fault = first_fault(!terms.lm, over, !hash.present, wrong);
    checked_with(fault, no_hash(), lm)
}

// The new hashes of an accepted version 1 change, or the first thing that is wrong with it.
pub fn check_change_one(
    terms: Terms,
    kept: Entry,
    challenge: [u8; 8],
    fields: ChangeOne,
) -> Result<NewHashes, ChangeFault>
    ensures { checked_as result ≡ checked_change_one terms kept challenge fields }
{
    let over = LONGEST_LM < fields.length as usize;
    if fields.flags % 2 == 1 {
        return check_nt(kept, challenge, fields, over);
    }
    check_lm(terms, kept, challenge, fields, over)
}
