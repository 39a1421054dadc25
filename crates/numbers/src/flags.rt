// A record as C makes and reads it: flags and hashes. One that is made counts no failures.
ghost use Rattle.std.specs.Prelude.{◌≡◌, ◌*◌, ◌≤◌, ◌<◌};
ghost use Rattle.layouts.specs.Records.{flag};
ghost use Rattle.numbers.specs.Flags.{is_set, is_hash_passed, record_arguments, record_from};
ghost use Rattle.numbers.specs.Flags.{flags_of};

use accounts::{EntryLookup, Lookup};
use packets::HASH_SIZE;

const FOUND: u32 = 1;

const NT: u32 = 2;

const LM: u32 = 4;

const DISABLED: u32 = 8;

const HOURS_DENIED: u32 = 16;

const DIALIN_DENIED: u32 = 32;

const EXPIRED: u32 = 64;

const FLAGS_END: u32 = 128;

fn is_set(flag: u32, flags: u32) -> bool
    requires { 0 < flag }
    ensures { result ≡ is_set flag flags }
{
    flags / flag % 2 == 1
}

// A hash is passed whole where its flag is set, and else not at all.
fn is_hash_passed(set: bool, hash: &[u8]) -> bool
    ensures { result ≡ is_hash_passed set hash.now }
{
    if set {
        return hash.len() == HASH_SIZE;
    }
    hash.len() == 0
}

#[tactic(auto, unfolding(crate::specs::Flags::record_arguments))]
pub fn are_record_arguments(flags: u32, nt: &[u8], lm: &[u8]) -> bool
    ensures { result ≡ record_arguments flags nt.now lm.now }
{
    flags < FLAGS_END
        && is_hash_passed(is_set(NT, flags), nt)
        && is_hash_passed(is_set(LM, flags), lm)
}

pub fn record_from(flags: u32, nt: &[u8], lm: &[u8]) -> Lookup
    ensures { result ≡ record_from flags nt.now lm.now }
{
    let nt_hash = accounts::hash_if(is_set(NT, flags), octets::array_at(nt, 0));
    let lm_hash = accounts::hash_if(is_set(LM, flags), octets::array_at(lm, 0));
    let disabled = is_set(DISABLED, flags);
    let hours = is_set(HOURS_DENIED, flags);
    let dialin = is_set(DIALIN_DENIED, flags);
    let expired = is_set(EXPIRED, flags);
    let account = accounts::account_with(nt_hash, lm_hash, disabled, hours, dialin, expired);
    accounts::lookup_of(is_set(FOUND, flags), account)
}

fn weighed(weight: u32, b: bool) -> u32
    ensures { (result ≡ weight * flag b) × (result ≤ weight) }
{
    if b {
        return weight;
    }
    0
}

pub fn flags_of(lookup: EntryLookup) -> u32
    ensures { result ≡ flags_of lookup }
{
    let entry = lookup.entry;
    let nt = entry.nt;
    let lm = entry.lm;
    let marks = weighed(HOURS_DENIED, entry.hours_denied)
        + (weighed(DIALIN_DENIED, entry.dialin_denied) + weighed(EXPIRED, entry.expired));
    let hashes = weighed(LM, lm.present) + (weighed(DISABLED, entry.disabled) + marks);
    weighed(FOUND, lookup.found) + (weighed(NT, nt.present) + hashes)
}
