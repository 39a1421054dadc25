// An account file in Samba's smbpasswd(5) layout, which the caller passes whole.
ghost use Rattle.account_files.specs.Calls.{FindCall, WriteCall, CountCall};

// The record of a name, and where its line starts. 14 and 15 have an offset too. A file has no
// place for the count: the record that is found has 0.
#[unsafe(no_mangle)]
pub extern "C" fn mschap_find_account(
    file: &[u8],
    name: &[u8],
    present: u32,
    max_age: u32,
    out: &mut [u8],
    offset: &mut usize,
) -> u32
    ensures { FindCall file.now name.now present max_age
        out.old offset.old result out.new offset.new }
{
    account_files::find_account(file, name, present, max_age, out, offset)
}

// Writes a record back into the line of its name, but for its count. 102: it is the record of no
// account; 103: there is no such account.
#[unsafe(no_mangle)]
pub extern "C" fn mschap_write_account(
    file: &mut [u8],
    name: &[u8],
    bytes: &[u8],
    present: u32,
    offset: &mut usize,
) -> u32
    ensures { WriteCall file.old name.now bytes.now present
        offset.old result file.new offset.new }
{
    account_files::write_account(file, name, bytes, present, offset)
}

// The lines, those of another form, and the accounts that are disabled, expired and without an NT
// hash.
#[unsafe(no_mangle)]
pub extern "C" fn mschap_count_accounts(
    file: &[u8],
    present: u32,
    max_age: u32,
    lines: &mut u64,
    bad: &mut u64,
    disabled: &mut u64,
    expired: &mut u64,
    no_nt: &mut u64,
) -> u32
    ensures { CountCall file.now present max_age result lines.new
        bad.new disabled.new expired.new no_nt.new }
{
    account_files::count_accounts(file, present, max_age, lines, bad, disabled, expired, no_nt)
}
