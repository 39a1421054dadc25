// A record in a buffer of C's: made of flags and hashes, read, its count read and set, and its
// response. What a call returns and leaves is said here; `mschap` exports the five under their
// names in C. Every public function is total.
#![tactic(auto)]

ghost use Rattle.std.specs.Prelude.{◌≡◌, cond};
ghost use Rattle.account_records.specs.Calls.{MakeRecordCall, read_record_arguments};
ghost use Rattle.account_records.specs.Calls.{ReadRecordCall, record_failures};
ghost use Rattle.account_records.specs.Calls.{set_failures_arguments, SetFailuresCall};
ghost use Rattle.account_records.specs.Calls.{is_one_hash, named_hash, named_at};
ghost use Rattle.account_records.specs.Calls.{RecordResponseCall};
ghost use Rattle.account_records.specs.Inner.{response_arguments_as};

use accounts::{EntryLookup, Hash, entry_failures};
use layouts::{
    BAD_ARGUMENT, INVALID, KEYS_SIZE, RECORD_HEAD_SIZE, decode_head, fill, is_encoded_record,
    is_record, put_record, put_record_head, refuse,
};
use numbers::{are_record_arguments, flags_of, record_from};
use packets::{ANSWER_SIZE, CHALLENGE_SIZE, HASH_SIZE};
use refusals::Refusal;

const FAILURES_END: u32 = 256;

// The flags of the two hashes.
const NT: u32 = 2;

const LM: u32 = 4;

// Makes a record of flags and hashes.
pub fn make_record(flags: u32, nt: &[u8], lm: &[u8], out: &mut [u8]) -> u32
    ensures { MakeRecordCall flags nt.now lm.now
        out.old result out.new }
{
    if !are_record_arguments(flags, nt, lm) {
        return BAD_ARGUMENT;
    }
    put_record(record_from(flags, nt, lm), out)
}

// ---- read

#[tactic(auto, unfolding(crate::specs::Calls::read_record_arguments))]
fn are_read_record_arguments(account: &[u8], nt: &[u8], lm: &[u8]) -> bool
    ensures { result
        ≡ read_record_arguments account.now nt.now lm.now }
{
    is_encoded_record(account) && nt.len() == HASH_SIZE && lm.len() == HASH_SIZE
}

// The flags and the hashes of a record.
pub fn read_record(account: &[u8], flags: &mut u32, nt: &mut [u8], lm: &mut [u8]) -> u32
    ensures { ReadRecordCall account.now flags.old nt.old
        lm.old result flags.new nt.new lm.new }
{
    if !are_read_record_arguments(account, nt, lm) {
        return BAD_ARGUMENT;
    }
    let lookup = decode_head(account);
    let entry = lookup.entry;
    let nt_hash = entry.nt.octets;
    let lm_hash = entry.lm.octets;
    *flags = flags_of(lookup);
    octets::copy(nt, &nt_hash);
    octets::copy(lm, &lm_hash);
    0
}

// ---- its count

// How many Responses in a row were judged invalid.
pub fn record_failures(account: &[u8]) -> u32
    ensures { result ≡ record_failures account.now }
{
    if !is_encoded_record(account) {
        return INVALID;
    }
    decode_head(account).entry.failures as u32
}

#[tactic(auto, unfolding(crate::specs::Calls::set_failures_arguments))]
fn are_set_failures_arguments(account: &[u8], failures: u32) -> bool
    ensures { result ≡ set_failures_arguments account.now failures }
{
    is_encoded_record(account) && failures < FAILURES_END
}

// Sets the count of a record, at most 255. With 0 the account is unlocked. Its round keys stay
// where they are.
pub fn set_failures(account: &mut [u8], failures: u32) -> u32
    ensures { SetFailuresCall account.old failures result account.new }
{
    if !are_set_failures_arguments(account, failures) {
        return BAD_ARGUMENT;
    }
    let lookup = decode_head(account);
    let before = lookup.entry;
    let entry = entry_failures(before, failures as u8);
    let after = EntryLookup {
        found: lookup.found,
        entry,
    };
    put_record_head(after, account);
    0
}

// ---- its response

fn is_one_hash(hash: u32) -> bool
    ensures { result ≡ is_one_hash hash }
{
    hash == NT || hash == LM
}

fn are_record_response_arguments(
    head: EntryLookup,
    account: &[u8],
    hash: u32,
    challenge: &[u8],
) -> bool
    ensures { result ≡ response_arguments_as head account.now hash
        challenge.now }
{
    is_record(head, account) && is_one_hash(hash) && challenge.len() == CHALLENGE_SIZE
}

fn named_hash(head: EntryLookup, hash: u32) -> Hash
    ensures { result ≡ named_hash head hash }
{
    let entry = head.entry;
    let nt = entry.nt;
    let lm = entry.lm;
    if hash == NT {
        return nt;
    }
    lm
}

// Where its round keys begin.
fn named_at(hash: u32) -> usize
    ensures { result ≡ named_at hash }
{
    if hash == NT {
        RECORD_HEAD_SIZE
    } else {
        RECORD_HEAD_SIZE + KEYS_SIZE
    }
}

// The response of the NT hash or of the LM hash of a record to a challenge, by the round keys that
// the record carries. 102: it has no such hash.
pub fn record_response(account: &[u8], hash: u32, challenge: &[u8], out: &mut [u8]) -> u32
    ensures { RecordResponseCall account.now hash challenge.now
        out.old result out.new }
{
    let head = decode_head(account);
    if !are_record_response_arguments(head, account, hash, challenge) {
        return BAD_ARGUMENT;
    }
    if !named_hash(head, hash).present {
        return refuse(Refusal::Record, ANSWER_SIZE, out);
    }
    let keys = octets::part_of(account, named_at(hash), KEYS_SIZE);
    let response = credentials::scheduled_response(keys, octets::array_at(challenge, 0));
    fill(&response, out)
}
