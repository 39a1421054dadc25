// Account records: what one holds, what a lookup found, and the only functions that make or update
// one. Whoever reads a record, from a file or from C, makes it by these. A record holds the round
// keys of its hashes, so that a Response is judged without making them again.
#![tactic(auto)]

ghost use Rattle.std.specs.Prelude.{◌≡◌};
ghost use Rattle.accounts.specs.Account.{
  no_hash,
  hash_of,
  hash_if,
  no_schedules,
  schedules_for,
  entry_with,
  blank_entry,
  with_schedules,
  account_of,
  account_with,
  blank_account,
  entry_of,
  not_found,
  found,
  lookup_of,
  no_entry,
  entry_lookup_of,
  changed,
  changed_entry,
  with_failures,
  entry_failures,
};

use credentials::SCHEDULES_SIZE;

// A hash, or none: what stands in the octets of an absent hash has no effect. A flag and no Option:
// the octets are laid out for C and read back as they stand, and a Response is judged over them
// whether the hash is there or not, so that the time does not tell.
#[derive(Clone, Copy)]
pub struct Hash {
    pub present: bool,
    pub octets: [u8; 16],
}

// The stored round keys of a hash: three schedules of sixteen, one after the other.
#[derive(Clone, Copy)]
pub struct Schedules {
    pub keys: [u64; SCHEDULES_SIZE],
}

// An account record: an NT hash or none, an LM hash or none, document 01's four marks: disabled,
// barred by hours, no dial-in, expired; how many Responses in a row were judged invalid; and beside
// each hash its round keys.
#[derive(Clone, Copy)]
pub struct Account {
    pub nt: Hash,
    pub lm: Hash,
    pub disabled: bool,
    pub hours_denied: bool,
    pub dialin_denied: bool,
    pub expired: bool,
    pub failures: u8,
    pub nt_keys: Schedules,
    pub lm_keys: Schedules,
}

// A record without its round keys: what a change reads and a conversation keeps. It is short, so
// that it can be handed on by value. A record has these fields, and no Entry within it, as the
// definitions and the theorems over them read them of a record: that may not change.
#[derive(Clone, Copy)]
pub struct Entry {
    pub nt: Hash,
    pub lm: Hash,
    pub disabled: bool,
    pub hours_denied: bool,
    pub dialin_denied: bool,
    pub expired: bool,
    pub failures: u8,
}

// The record of the named account, or none: the account has no effect unless it was found. A flag
// and no Option, for the reasons of Hash.
#[derive(Clone, Copy)]
pub struct Lookup {
    pub found: bool,
    pub account: Account,
}

// The same without the round keys.
#[derive(Clone, Copy)]
pub struct EntryLookup {
    pub found: bool,
    pub entry: Entry,
}

// ---- hashes

pub fn hash_if(present: bool, octets: [u8; 16]) -> Hash
    ensures { result ≡ hash_if present octets }
{
    Hash { present, octets }
}

pub fn hash_of(octets: [u8; 16]) -> Hash
    ensures { result ≡ hash_of octets }
{
    hash_if(true, octets)
}

pub fn no_hash() -> Hash
    ensures { result ≡ no_hash }
{
    hash_if(false, [0; 16])
}

// ---- round keys

// None: zeros.
pub fn no_schedules() -> Schedules
    ensures { result ≡ no_schedules }
{
    Schedules {
        keys: [0; SCHEDULES_SIZE],
    }
}

// Those of a hash; zeros where there is none.
pub fn schedules_for(hash: Hash) -> Schedules
    ensures { result ≡ schedules_for hash }
{
    if hash.present {
        return Schedules {
            keys: credentials::hash_schedules(hash.octets),
        };
    }
    no_schedules()
}

// ---- entries made

// An entry that is newly made counts no failures.
pub fn entry_with(
    nt: Hash,
    lm: Hash,
    disabled: bool,
    hours: bool,
    dialin: bool,
    expired: bool,
) -> Entry
    ensures { result ≡ entry_with nt lm disabled hours dialin expired }
{
    Entry {
        nt,
        lm,
        disabled,
        hours_denied: hours,
        dialin_denied: dialin,
        expired,
        failures: 0,
    }
}

// Neither hash, no mark, no failures.
pub fn blank_entry() -> Entry
    ensures { result ≡ blank_entry }
{
    entry_with(no_hash(), no_hash(), false, false, false, false)
}

// ---- records made

// An entry and the round keys beside its hashes, whosever they are.
pub fn with_schedules(entry: Entry, nt_keys: Schedules, lm_keys: Schedules) -> Account
    ensures { result ≡ with_schedules entry nt_keys lm_keys }
{
    Account {
        nt: entry.nt,
        lm: entry.lm,
        disabled: entry.disabled,
        hours_denied: entry.hours_denied,
        dialin_denied: entry.dialin_denied,
        expired: entry.expired,
        failures: entry.failures,
        nt_keys,
        lm_keys,
    }
}

// A record with the round keys of its own hashes.
pub fn account_of(entry: Entry) -> Account
    ensures { result ≡ account_of entry }
{
    with_schedules(entry, schedules_for(entry.nt), schedules_for(entry.lm))
}

pub fn account_with(
    nt: Hash,
    lm: Hash,
    disabled: bool,
    hours: bool,
    dialin: bool,
    expired: bool,
) -> Account
    ensures { result ≡ account_with nt lm disabled hours dialin expired }
{
    account_of(entry_with(nt, lm, disabled, hours, dialin, expired))
}

pub fn blank_account() -> Account
    ensures { result ≡ blank_account }
{
    account_of(blank_entry())
}

pub fn entry_of(account: Account) -> Entry
    ensures { result ≡ entry_of account }
{
    Entry {
        nt: account.nt,
        lm: account.lm,
        disabled: account.disabled,
        hours_denied: account.hours_denied,
        dialin_denied: account.dialin_denied,
        expired: account.expired,
        failures: account.failures,
    }
}

// ---- looked up

pub fn lookup_of(found: bool, account: Account) -> Lookup
    ensures { result ≡ lookup_of found account }
{
    Lookup { found, account }
}

pub fn found(account: Account) -> Lookup
    ensures { result ≡ found account }
{
    lookup_of(true, account)
}

pub fn not_found() -> Lookup
    ensures { result ≡ not_found }
{
    lookup_of(false, blank_account())
}

pub fn no_entry() -> EntryLookup
    ensures { result ≡ no_entry }
{
    EntryLookup {
        found: false,
        entry: blank_entry(),
    }
}

pub fn entry_lookup_of(lookup: Lookup) -> EntryLookup
    ensures { result ≡ entry_lookup_of lookup }
{
    EntryLookup {
        found: lookup.found,
        entry: entry_of(lookup.account),
    }
}

// ---- updated

// What an accepted change of the password makes of an entry, by its new hashes: it counts no
// failures.
pub fn changed_entry(entry: Entry, nt: Hash, lm: Hash) -> Entry
    ensures { result ≡ changed_entry entry nt lm }
{
    Entry {
        nt,
        lm,
        expired: false,
        failures: 0,
        ..entry
    }
}

// The record after an accepted change, with the round keys of the new hashes.
pub fn changed(entry: Entry, nt: Hash, lm: Hash) -> Account
    ensures { result ≡ changed entry nt lm }
{
    account_of(changed_entry(entry, nt, lm))
}

// The same entry with another count of failures.
pub fn entry_failures(entry: Entry, failures: u8) -> Entry
    ensures { result ≡ entry_failures failures entry }
{
    Entry { failures, ..entry }
}

// The same record with another count of failures. With 0 it is unlocked.
pub fn with_failures(account: Account, failures: u8) -> Account
    ensures { result ≡ with_failures failures account }
{
    Account {
        failures,
        ..account
    }
}
