// The error codes of a Failure (RFC 2433, section 8), document 01's "reasons", by the RFC's names.
pub const RESTRICTED_LOGON_HOURS: u16 = 646;

pub const ACCOUNT_DISABLED: u16 = 647;

pub const PASSWORD_EXPIRED: u16 = 648;

pub const NO_DIALIN_PERMISSION: u16 = 649;

pub const AUTHENTICATION_FAILURE: u16 = 691;

pub const CHANGING_PASSWORD: u16 = 709;

// No Failure: Success.
pub const NO_REASON: u16 = 0;
