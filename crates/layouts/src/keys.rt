// The layout of stored round keys: as the cipher reads them.
ghost use Rattle.std.specs.Prelude.{◌≡◌};
ghost use Rattle.layouts.specs.Keys.{encode_schedules};

use accounts::Account;

// A hash's, and a record's, in bytes.
pub const KEYS_SIZE: usize = 384;

pub const BOTH_KEYS_SIZE: usize = 768;

// The bytes of a record's round keys.
pub fn encode_schedules(account: Account) -> [u8; BOTH_KEYS_SIZE]
    ensures { result ≡ encode_schedules account }
{
    let nt = account.nt_keys.keys;
    let lm = account.lm_keys.keys;
    let mut bytes = [0u8; BOTH_KEYS_SIZE];
    octets::copy(&mut bytes, &credentials::key_octets(nt));
    octets::copy_at(&mut bytes, KEYS_SIZE, &credentials::key_octets(lm));
    bytes
}
