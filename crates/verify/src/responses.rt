// Whether a Response is judged valid, the reason that it draws, and how the record counts it. The
// round keys that the record carries decide, and not its hash: so none are made here.
//
// A Response that is not valid takes the same work in whatever way it is not (a wrong response, no
// record, no hash, LM off, a locked account), so that the time does not tell an unknown account.
// One response is made and compared in every case, and which of those that were sent is chosen
// without a branch.
ghost use Rattle.std.specs.Prelude.{◌≡◌, cond, ◌&&◌};
ghost use Rattle.accounts.specs.Account.{stored_in};
ghost use Rattle.verify.specs.Response.{uses_nt, carrying, carrying_lookup};
ghost use Rattle.verify.specs.Response.{valid, first_reason, checked_response};

use crate::lockout::{failures_after, is_locked};
use crate::{CheckedResponse, Terms};
use accounts::{Entry, EntryLookup, Hash, entry_failures};
use message::reasons;

// Whether the NT response counts, and so the round keys of the NT hash: with flag 1 and an NT hash.
// Else those of the LM hash do.
pub fn uses_nt(flag: u8, nt: Hash) -> bool
    ensures { result ≡ uses_nt flag nt }
{
    (flag == 1) & nt.present
}

fn chosen_response(a: bool, b: bool, both: [u8; 24], other: [u8; 24]) -> [u8; 24]
    ensures { result ≡ cond (a && b) both other }
{
    let mut response = other;
    octets::copy_if_both(a, b, &mut response, &both);
    response
}

// Whether the round keys, which stand beside the hash that counts, give the response that counts: a
// wrong NT response is not made good by the LM response.
fn is_valid(
    terms: Terms,
    challenge: [u8; 8],
    entry: Entry,
    keys: &[u8],
    fields: packets::Response,
) -> bool
    ensures { result
        ≡ valid terms challenge (carrying entry (stored_in keys.now)) fields }
{
    let nt = entry.nt;
    let lm = entry.lm;
    let nt_response = fields.nt;
    let lm_response = fields.lm;
    let flagged = fields.flag == 1;
    let present = nt.present;
    let response = chosen_response(flagged, present, nt_response, lm_response);
    let expected = credentials::scheduled_response(keys, challenge);
    let counts = (flagged & present) | (terms.lm & lm.present);
    octets::agree_if_both(true, counts, &response, &expected)
}

// A reason where a test holds, and else the rest: the order of the reasons is composed by this.
fn reason_if(test: bool, reason: u16, rest: u16) -> u16
    ensures { result ≡ cond test reason rest }
{
    if test { reason } else { rest }
}

fn first_reason(valid: bool, entry: Entry) -> u16
    ensures { result ≡ first_reason valid entry }
{
    let expired = reason_if(entry.expired, reasons::PASSWORD_EXPIRED, reasons::NO_REASON);
    let dialin = reason_if(entry.dialin_denied, reasons::NO_DIALIN_PERMISSION, expired);
    let hours = reason_if(entry.hours_denied, reasons::RESTRICTED_LOGON_HOURS, dialin);
    let disabled = reason_if(entry.disabled, reasons::ACCOUNT_DISABLED, hours);
    reason_if(!valid, reasons::AUTHENTICATION_FAILURE, disabled)
}

// The first reason that applies (0 is Success), and what was looked up with the record's count as
// the Response leaves it. A locked account is answered as one that is not known. The round keys are
// those beside the hash that counts (`uses_nt`), lent in octets so that they are not copied.
pub fn check_response(
    terms: Terms,
    challenge: [u8; 8],
    lookup: EntryLookup,
    keys: &[u8],
    fields: packets::Response,
) -> CheckedResponse
    ensures { result ≡ checked_response terms challenge
        (carrying_lookup lookup (stored_in keys.now)) fields }
{
    let entry = lookup.entry;
    let locked = is_locked(terms, entry.failures);
    let valid = is_valid(terms, challenge, entry, keys, fields);
    let failures = failures_after(locked, valid, entry.failures);
    let reason = first_reason(lookup.found & (!locked & valid), entry);
    let after = entry_failures(entry, failures);
    CheckedResponse {
        reason,
        updated: EntryLookup {
            found: lookup.found,
            entry: after,
        },
    }
}
