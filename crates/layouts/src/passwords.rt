// The layout of a password in 16-bit characters.
ghost use Rattle.std.specs.Prelude.{◌≡◌};
ghost use Rattle.layouts.specs.Call.{Fills, sized};
ghost use Rattle.layouts.specs.Passwords.{encode_password, decode_password};
ghost use Rattle.layouts.specs.Passwords.{is_encoded_password, password_size};

use crate::buffers::fill;

pub const PASSWORD_SIZE: usize = 516;

// W
const PASSWORD_KIND: u8 = 87;

const PASSWORD_VERSION: u8 = 1;

const LENGTH_AT: usize = 2;

const BYTES_AT: usize = 4;

#[derive(Clone, Copy)]
pub(crate) struct PasswordValue {
    pub bytes: [u8; PASSWORD_SIZE],
}

// What of the password is beyond 512 bytes is left out.
fn encode_password(password: &[u8]) -> PasswordValue
    ensures { result.bytes ≡ encode_password password.now }
{
    let n = password.len();
    let head = [
        PASSWORD_KIND,
        PASSWORD_VERSION,
        (n / 256 % 256) as u8,
        (n % 256) as u8,
    ];
    let mut bytes = [0u8; PASSWORD_SIZE];
    octets::copy(&mut bytes, &head);
    octets::copy_at(&mut bytes, BYTES_AT, password);
    PasswordValue { bytes }
}

// The bytes of the password: as many as the value says, or as there are.
pub fn decode_password(bytes: &[u8]) -> &[u8]
    ensures { result.now ≡ decode_password bytes.now }
{
    let n = octets::u16_from_be(packets::octet(bytes, LENGTH_AT), packets::octet(bytes, 3));
    octets::part_of(bytes, BYTES_AT, n as usize)
}

// Whether bytes are a password's.
#[tactic(auto, unfolding(crate::specs::Passwords::is_encoded_password))]
pub fn is_encoded_password(bytes: &[u8]) -> bool
    ensures { result ≡ is_encoded_password bytes.now }
{
    let password = decode_password(bytes);
    let value = encode_password(password).bytes;
    octets::agree(&value, bytes) && !credentials::is_bad_nt_password(password)
}

// Fills out with a password.
pub fn put_password(password: &[u8], out: &mut [u8]) -> u32
    ensures { Fills (sized password_size out.old) 0
        (encode_password password.now) out.old result out.new }
{
    let value = encode_password(password).bytes;
    fill(&value, out)
}
