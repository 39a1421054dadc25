// Whether a version 2 change of the password is accepted, and what is wrong with one that is not.
// The kept record decides.
//
// Every condition is a total test and all of them are made, one hash, one proof of the old hash and
// one response in every case, so that a change which is not accepted takes about the same work
// whatever is wrong with it. Each function passes on what was found wrong beneath it.
ghost use Rattle.std.specs.Prelude.{◌≡◌, cond, ◌-◌, ◌%◌, ◌≤◌, length, Some};
ghost use Rattle.octets.specs.Parts.{part, agrees};
ghost use Rattle.credentials.specs.Credentials.{longest_nt, nt_hash_of, ValidLength};
ghost use Rattle.verify.specs.Change.{checked_as, checked_with, bad_verifier, bad_response};
ghost use Rattle.verify.specs.Change.{checked_change};
ghost use Rattle.verify.specs.Faults.{is_faultless};
ghost use Rattle.verify.specs.Inner.{content_fault, content_length, block_with, checked_block};
ghost use Rattle.verify.specs.declared.ChangeFault.TheVariants.{OldHashWrong, ResponseWrong};
ghost use Rattle.verify.specs.declared.ChangeFault.TheVariants.{NoNtHash, NoNtResponse};

use crate::faults::{fault_number, fault_with};
use crate::{ChangeFault, CheckedBlock, NewHashes};
use accounts::{Entry, Hash, hash_of, no_hash};
use credentials::{Content, HASH_SIZE, LONGEST_NT, Unsealed};

// What was found: the new hashes, unless something is wrong.
pub(crate) fn checked_with(
    fault: Option<ChangeFault>,
    nt: Hash,
    lm: Hash,
) -> Result<NewHashes, ChangeFault>
    ensures { checked_as result ≡ checked_with fault nt lm }
{
    match fault {
        Some(fault) => Err(fault),
        None => Ok(NewHashes { nt, lm }),
    }
}

// What was found in a block: the hash, unless something is wrong.
fn block_with(fault: Option<ChangeFault>, hash: [u8; HASH_SIZE]) -> CheckedBlock
    ensures { result ≡ block_with fault hash }
{
    match fault {
        Some(_) => CheckedBlock {
            fault,
            hash: [0; HASH_SIZE],
        },
        None => CheckedBlock { fault, hash },
    }
}

// The hash of the password of n octets at the end of an unsealed block.
fn hash_of_last(octets: &[u8], n: usize) -> [u8; HASH_SIZE]
    requires { (length octets.now ≡ longest_nt) × (n ≤ longest_nt) × (n % 2 ≡ 0) }
    ensures { result ≡ nt_hash_of (part (longest_nt - n) n octets.now) }
{
    credentials::nt_hash(octets::part_of(octets, LONGEST_NT - n, n)).unwrap()
}

// The fault of an unsealed block's length.
fn content_fault(content: Content) -> Option<ChangeFault>
    ensures { result ≡ content_fault content }
{
    match content {
        Content::Over => Some(ChangeFault::LengthOver),
        Content::Odd => Some(ChangeFault::LengthOdd),
        Content::Password(_) => None,
    }
}

// How many octets are hashed: those of the password, or none.
fn content_length(content: Content) -> usize
    ensures { result ≡ content_length content }
{
    match content {
        Content::Over | Content::Odd => 0,
        Content::Password(n) => n,
    }
}

// The hash of the password in an unsealed block, or the fault of its length. One is made in every
// case.
fn checked_block(unsealed: Unsealed) -> CheckedBlock
    requires { ValidLength unsealed.content }
    ensures { result ≡ checked_block unsealed }
{
    let content = unsealed.content;
    let octets = unsealed.octets;
    let hash = hash_of_last(&octets, content_length(content));
    block_with(content_fault(content), hash)
}

pub(crate) fn is_same_hash(a: [u8; HASH_SIZE], b: [u8; HASH_SIZE]) -> bool
    ensures { result ≡ agrees a b }
{
    octets::agree(&a, &b)
}

fn is_same_response(a: [u8; 24], b: [u8; 24]) -> bool
    ensures { result ≡ agrees a b }
{
    octets::agree(&a, &b)
}

// What is wrong with the proof of a new hash: the old hash under it, or its response, is not the
// one that was sent.
#[tactic(auto, using(crate::proofs::Choices::chosen))]
fn proof_fault(
    kept: Entry,
    challenge: [u8; 8],
    fields: packets::Change,
    hash: [u8; HASH_SIZE],
) -> Option<ChangeFault>
    ensures { result ≡ cond (bad_verifier kept fields hash) (Some OldHashWrong)
        (cond (bad_response challenge fields hash) (Some ResponseWrong) None) }
{
    let nt = kept.nt;
    let old = nt.octets;
    let verifier = fields.verifier;
    let response = fields.nt;
    let same_hash = is_same_hash(verifier, credentials::old_under_new(old, hash));
    let same_response = is_same_response(
        response,
        credentials::challenge_response(hash, challenge),
    );
    let wrong_hash = (!same_hash).then_some(ChangeFault::OldHashWrong);
    let wrong_response = (!same_response).then_some(ChangeFault::ResponseWrong);
    wrong_hash.or(wrong_response)
}

// The first thing that is wrong. Where all is well before the proof, the proof's is chosen by number
// and without a branch: of a chain of `or` the compiler makes one, and leaves out the last tests
// where they do not count, so that the time would tell what was found.
fn first_fault(
    absent: bool,
    clear: bool,
    length: Option<ChangeFault>,
    proof: Option<ChangeFault>,
) -> Option<ChangeFault>
    ensures { result ≡ cond absent (Some NoNtHash) (cond clear (Some NoNtResponse)
        (cond (is_faultless length) proof length)) }
{
    let sent = clear.then_some(ChangeFault::NoNtResponse).or(length);
    let before = absent.then_some(ChangeFault::NoNtHash).or(sent);
    fault_with(octets::where_both(
        !absent & !clear,
        length.is_none(),
        fault_number(proof),
        fault_number(before),
    ))
}

// The new hash of an accepted version 2 change, or the first thing that is wrong with it.
pub fn check_change(
    kept: Entry,
    challenge: [u8; 8],
    fields: packets::Change,
) -> Result<NewHashes, ChangeFault>
    ensures { checked_as result ≡ checked_change kept challenge fields }
{
    let nt = kept.nt;
    let old = nt.octets;
    let block = fields.block;
    let found = checked_block(credentials::unseal(old, block));
    let hash = found.hash;
    let proof = proof_fault(kept, challenge, fields, hash);
    let fault = first_fault(!nt.present, fields.flags % 2 != 1, found.fault, proof);
    checked_with(fault, hash_of(hash), no_hash())
}
