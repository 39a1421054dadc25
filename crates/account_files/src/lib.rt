// An account file in a buffer of C's: an account looked up, a changed record written back, the
// accounts counted. What a call returns and leaves is said here; `mschap` exports the three under
// their names in C. Every public function is total.
#![tactic(auto)]

ghost use Rattle.account_files.specs.Calls.{FindCall, WriteCall, CountCall};
ghost use Rattle.account_files.specs.Inner.{AccountCall};

use accounts::{no_schedules, with_schedules};
use layouts::{BAD_ARGUMENT, RECORD_SIZE, decode_head, is_encoded_record, put_record, refused};
use refusals::Refusal;

// ---- looked up

// The record of a name, and where its line starts. 14 and 15 have an offset too. A file has no
// place for the count: the record that is found has 0.
pub fn find_account(
    file: &[u8],
    name: &[u8],
    present: u32,
    max_age: u32,
    out: &mut [u8],
    offset: &mut usize,
) -> u32
    ensures { FindCall file.now name.now present max_age
        out.old offset.old result out.new offset.new }
{
    if out.len() != RECORD_SIZE {
        return BAD_ARGUMENT;
    }
    match smbpasswd::find(file, name, present, max_age) {
        Ok(Some(line)) => {
            *offset = line.offset;
            put_record(accounts::found(line.account), out)
        }
        Ok(None) => {
            *offset = 0;
            put_record(accounts::not_found(), out)
        }
        Err(misplaced) => {
            *offset = misplaced.offset();
            refused(misplaced.refusal())
        }
    }
}

// ---- written back

fn write_back(
    file: &mut [u8],
    name: &[u8],
    account: accounts::Account,
    present: u32,
    offset: &mut usize,
) -> u32
    ensures { AccountCall file.old name.now account present
        offset.old result file.new offset.new }
{
    match smbpasswd::write_back(file, name, account, present) {
        Ok(Some(at)) => {
            *offset = at;
            0
        }
        Ok(None) => refused(Refusal::Nowhere),
        Err(misplaced) => {
            *offset = misplaced.offset();
            refused(misplaced.refusal())
        }
    }
}

// Writes a record back into the line of its name, but for its count and its round keys, for which a
// file has no place: so none are decoded. 102: it is the record of no account.
pub fn write_account(
    file: &mut [u8],
    name: &[u8],
    bytes: &[u8],
    present: u32,
    offset: &mut usize,
) -> u32
    ensures { WriteCall file.old name.now bytes.now present
        offset.old result file.new offset.new }
{
    if !is_encoded_record(bytes) {
        return BAD_ARGUMENT;
    }
    let lookup = decode_head(bytes);
    if !lookup.found {
        return refused(Refusal::Record);
    }
    let entry = lookup.entry;
    let account = with_schedules(entry, no_schedules(), no_schedules());
    write_back(file, name, account, present, offset)
}

// ---- counted

// The lines, those of another form, and the accounts that are disabled, expired and without an NT
// hash.
pub fn count_accounts(
    file: &[u8],
    present: u32,
    max_age: u32,
    lines: &mut u64,
    bad: &mut u64,
    disabled: &mut u64,
    expired: &mut u64,
    no_nt: &mut u64,
) -> u32
    ensures { CountCall file.now present max_age result lines.new
        bad.new disabled.new expired.new no_nt.new }
{
    let k = smbpasswd::count(file, present, max_age);
    *lines = k.lines as u64;
    *bad = k.bad as u64;
    *disabled = k.disabled as u64;
    *expired = k.expired as u64;
    *no_nt = k.no_nt as u64;
    0
}
