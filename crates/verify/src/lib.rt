// Verification: whether a Response is judged valid for an account record, with which reason it is
// answered and how the record counts it, and whether a change of the password is accepted or what
// is wrong with it. No conversation and no packets: the terms, the challenge in force, the record
// and the fields decide.
#![tactic(auto)]

mod changes;
mod changes_one;
mod faults;
mod lockout;
mod responses;

use accounts::{EntryLookup, Hash};

// Which Change Password packet is awaited after an expired password: version 1's or version 2's.
// V of every Failure is its number.
#[derive(Clone, Copy)]
pub enum ChangeVersion {
    One = 1,
    Two = 2,
}

// What the opening fixes for the whole conversation.
#[derive(Clone, Copy)]
pub struct Terms {
    // whether an LM response may count
    pub lm: bool,
    // with how many invalid Responses in a row an account is locked
    pub limit: u8,
    // which change is awaited
    pub change: ChangeVersion,
}

// A Response that was checked: the reason that it draws (0 is Success), and what was looked up,
// with the record's count as the Response leaves it. Its round keys are those that it came with.
#[derive(Clone, Copy)]
pub struct CheckedResponse {
    pub reason: u16,
    pub updated: EntryLookup,
}

// What is wrong with a change that is not accepted: the first that holds, in this order.
#[derive(Clone, Copy)]
pub enum ChangeFault {
    // version 2: the kept record has no NT hash
    NoNtHash = 1,
    // flag bit 0 is clear: the peer does not ask for its NT response (RFC 2433, section 10)
    NoNtResponse = 2,
    // the opened block's length is over 512, or odd
    LengthOver = 3,
    LengthOdd = 4,
    // the old hash under the new one is not the one that was sent
    OldHashWrong = 5,
    // the NT response is not that of the new hash to the challenge in force
    ResponseWrong = 6,
    // version 1: bit 0 is clear, and LM is not allowed or the password's length is over 14
    LmNotAllowed = 7,
    LengthOverLm = 8,
    // the kept record has not the hash that bit 0 asks for, or its field is not the one under the
    // challenge in force
    HashAbsent = 9,
    HashWrong = 10,
}

// The new hashes of an accepted change: NT, LM or both.
#[derive(Clone, Copy)]
pub struct NewHashes {
    pub nt: Hash,
    pub lm: Hash,
}

// The opened block of a version 2 change: the fault of its length, or none, and the hash of the
// password in it (sixteen octets 0 beside a fault). Both, and not a `Result`: the tests of the hash
// are made beside a fault too, so that a change takes the same work whatever is wrong with it.
#[derive(Clone, Copy)]
pub(crate) struct CheckedBlock {
    fault: Option<ChangeFault>,
    hash: [u8; 16],
}

pub use changes::check_change;
pub use changes_one::check_change_one;
pub use faults::{fault_number, fault_with};
pub use responses::{check_response, uses_nt};
