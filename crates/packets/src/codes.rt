// The codes of the packets (RFC 1994, section 4; RFC 2433, sections 9 and 10).
pub const CHALLENGE_CODE: u8 = 1;

pub const RESPONSE_CODE: u8 = 2;

pub const SUCCESS_CODE: u8 = 3;

pub const FAILURE_CODE: u8 = 4;

// Change Password, version 1.
pub const CHANGE_ONE_CODE: u8 = 5;

// Change Password, version 2.
pub const CHANGE_CODE: u8 = 6;
