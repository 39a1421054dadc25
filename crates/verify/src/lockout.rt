// Lockout: whether an account is locked, and its count of failures after a Response. Nothing here
// branches on what is found: whether a guess at a locked account is right is in its count, which is
// a secret, and the time is not to tell it either.
ghost use Rattle.std.specs.Prelude.{◌≡◌};
ghost use Rattle.verify.specs.Lockout.{is_locked_at, one_more, failures_after};

use crate::Terms;

const MOST_FAILURES: u8 = 255;

// Whether an account with that count is locked.
pub(crate) fn is_locked(terms: Terms, failures: u8) -> bool
    ensures { result ≡ is_locked_at terms failures }
{
    terms.limit <= failures
}

// One more, to at most 255.
fn one_more(n: u8) -> u8
    ensures { result ≡ one_more n }
{
    n + (n < MOST_FAILURES) as u8
}

// The count after a judged Response. A valid one clears it, but not that of a locked account, which
// it leaves as it is.
pub(crate) fn failures_after(locked: bool, valid: bool, n: u8) -> u8
    ensures { result ≡ failures_after locked valid n }
{
    let cleared = octets::where_both(true, locked, n, 0);
    octets::where_both(true, valid, cleared, one_more(n))
}
