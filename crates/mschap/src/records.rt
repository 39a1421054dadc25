// A record: made of flags and hashes, read, its count read and set, and its response.
ghost use Rattle.std.specs.Prelude.{◌≡◌};
ghost use Rattle.account_records.specs.Calls.{MakeRecordCall, ReadRecordCall, record_failures};
ghost use Rattle.account_records.specs.Calls.{SetFailuresCall, RecordResponseCall};

// Makes a record of flags and hashes.
#[unsafe(no_mangle)]
pub extern "C" fn mschap_make_record(flags: u32, nt: &[u8], lm: &[u8], out: &mut [u8]) -> u32
    ensures { MakeRecordCall flags nt.now lm.now
        out.old result out.new }
{
    account_records::make_record(flags, nt, lm, out)
}

// The flags and the hashes of a record.
#[unsafe(no_mangle)]
pub extern "C" fn mschap_read_record(
    account: &[u8],
    flags: &mut u32,
    nt: &mut [u8],
    lm: &mut [u8],
) -> u32
    ensures { ReadRecordCall account.now flags.old nt.old
        lm.old result flags.new nt.new lm.new }
{
    account_records::read_record(account, flags, nt, lm)
}

// How many Responses in a row were judged invalid.
#[unsafe(no_mangle)]
pub extern "C" fn mschap_record_failures(account: &[u8]) -> u32
    ensures { result ≡ record_failures account.now }
{
    account_records::record_failures(account)
}

// Sets the count of a record, at most 255. With 0 the account is unlocked.
#[unsafe(no_mangle)]
pub extern "C" fn mschap_set_failures(account: &mut [u8], failures: u32) -> u32
    ensures { SetFailuresCall account.old failures result account.new }
{
    account_records::set_failures(account, failures)
}

// The response of the NT hash or of the LM hash of a record to a challenge, by the round keys that
// the record carries. 102: it has no such hash.
#[unsafe(no_mangle)]
pub extern "C" fn mschap_record_response(
    account: &[u8],
    hash: u32,
    challenge: &[u8],
    out: &mut [u8],
) -> u32
    ensures { RecordResponseCall account.now hash challenge.now
        out.old result out.new }
{
    account_records::record_response(account, hash, challenge, out)
}
