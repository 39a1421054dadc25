// Sizes of the packets and of their parts, in octets, and where the parts stand, as specs/Sizes has
// them.

// Code, identifier and Length.
pub const HEAD_SIZE: usize = 1 + 1 + 2;

// A challenge, an LM or NT response, and a hash under another one or under a challenge.
pub const CHALLENGE_SIZE: usize = 8;

pub const ANSWER_SIZE: usize = 24;

pub const HASH_SIZE: usize = 16;

// ---- a Challenge: the size of the value, and the challenge

pub const CHALLENGE_OFFSET: usize = HEAD_SIZE + 1;

pub const CHALLENGE_LENGTH: usize = CHALLENGE_OFFSET + CHALLENGE_SIZE;

// ---- a Response: the size of the value, which is LM response, NT response and flag, and the name

pub const VALUE_SIZE: usize = ANSWER_SIZE + ANSWER_SIZE + 1;

pub const LM_OFFSET: usize = HEAD_SIZE + 1;

pub const NT_OFFSET: usize = LM_OFFSET + ANSWER_SIZE;

pub const FLAG_OFFSET: usize = NT_OFFSET + ANSWER_SIZE;

pub const NAME_OFFSET: usize = FLAG_OFFSET + 1;

pub const LONGEST_NAME: usize = 256;

pub const SHORTEST_RESPONSE: usize = NAME_OFFSET + 1;

pub const LONGEST_RESPONSE: usize = NAME_OFFSET + LONGEST_NAME;

// ---- a Failure: the message that is written; it is the longest reply

pub const MESSAGE_SIZE: usize = 13;

pub const LONGEST_REPLY: usize = HEAD_SIZE + MESSAGE_SIZE;

// ---- a version 2 change: for NT and for LM the sealed block and the old hash under the new one,
// the LM and the NT response, and the flags

// 512 octets, and the length of the password.
pub const BLOCK_SIZE: usize = 512 + 4;

pub const VERIFIER_OFFSET: usize = HEAD_SIZE + BLOCK_SIZE;

pub const LM_BLOCK_OFFSET: usize = VERIFIER_OFFSET + HASH_SIZE;

pub const LM_VERIFIER_OFFSET: usize = LM_BLOCK_OFFSET + BLOCK_SIZE;

pub const LM_ANSWER_OFFSET: usize = LM_VERIFIER_OFFSET + HASH_SIZE;

pub const NT_ANSWER_OFFSET: usize = LM_ANSWER_OFFSET + ANSWER_SIZE;

pub const FLAGS_OFFSET: usize = NT_ANSWER_OFFSET + ANSWER_SIZE;

pub const CHANGE_SIZE: usize = FLAGS_OFFSET + 2;

// ---- a version 1 change: the old and the new LM hash and the old and the new NT hash, each under
// the challenge, the length of the new password, and the flags

pub const LM_OLD_OFFSET: usize = HEAD_SIZE;

pub const LM_NEW_OFFSET: usize = LM_OLD_OFFSET + HASH_SIZE;

pub const NT_OLD_OFFSET: usize = LM_NEW_OFFSET + HASH_SIZE;

pub const NT_NEW_OFFSET: usize = NT_OLD_OFFSET + HASH_SIZE;

pub const LENGTH_OFFSET: usize = NT_NEW_OFFSET + HASH_SIZE;

pub const ONE_FLAGS_OFFSET: usize = LENGTH_OFFSET + 2;

pub const CHANGE_ONE_SIZE: usize = ONE_FLAGS_OFFSET + 2;
