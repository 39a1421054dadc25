// The packets of MS-CHAP as records of their fields, read and written. Every function is total.
#![tactic(auto)]

mod changes;
mod changes_one;
mod codes;
mod frames;
mod names;
mod replies;
mod responses;
mod sizes;

pub use changes::{admit_change, read_change, write_change};
pub use changes_one::{admit_change_one, read_change_one, write_change_one};
pub use codes::{CHANGE_CODE, CHANGE_ONE_CODE, RESPONSE_CODE};
pub use frames::{is_bad_frame, is_bad_id, length, octet};
pub use names::{account, account_part, domain, domain_part};
pub use replies::{
    is_bad_reply_buffer, read_challenge, read_reply, write_challenge, write_failure, write_success,
};
pub use responses::{admit_response, name, read_response, write_response};
pub use sizes::{
    ANSWER_SIZE, BLOCK_SIZE, CHALLENGE_SIZE, CHANGE_ONE_SIZE, CHANGE_SIZE, FLAG_OFFSET, HASH_SIZE,
    LONGEST_REPLY, LONGEST_RESPONSE,
};

// The fields of a Response; its name stands beside them, as a part of the packet.
#[derive(Clone, Copy)]
pub struct Response {
    pub lm: [u8; ANSWER_SIZE],
    pub nt: [u8; ANSWER_SIZE],
    pub flag: u8,
}

// The fields of a version 2 Change Password packet: the new password under the old NT hash, the old
// NT hash under the new one, the same two for LM, the LM and the NT response, and the flags.
#[derive(Clone, Copy)]
pub struct Change {
    pub block: [u8; BLOCK_SIZE],
    pub verifier: [u8; HASH_SIZE],
    pub lmblock: [u8; BLOCK_SIZE],
    pub lmverifier: [u8; HASH_SIZE],
    pub lm: [u8; ANSWER_SIZE],
    pub nt: [u8; ANSWER_SIZE],
    pub flags: u16,
}

// The fields of a version 1 Change Password packet: the old and the new LM hash and the old and the
// new NT hash, each under the challenge, the length of the new password, and the flags.
#[derive(Clone, Copy)]
pub struct ChangeOne {
    pub lmold: [u8; HASH_SIZE],
    pub lmnew: [u8; HASH_SIZE],
    pub ntold: [u8; HASH_SIZE],
    pub ntnew: [u8; HASH_SIZE],
    pub length: u16,
    pub flags: u16,
}

// What the peer reads in a Challenge.
#[derive(Clone, Copy)]
pub struct Challenge {
    pub id: u8,
    pub challenge: [u8; CHALLENGE_SIZE],
}

// Where a part of a packet stands: from offset on, length octets.
#[derive(Clone, Copy)]
pub struct Part {
    pub offset: usize,
    pub length: usize,
}
