// Hashes, responses and the sealed password of MS-CHAP (RFC 2433, appendix A).
#![tactic(auto)]

ghost use Rattle.std.specs.Prelude.{◌≡◌, ◌++◌, ◌^◌, ◌≤◌, ◌<◌, length};
ghost use Rattle.octets.specs.Parts.{fixed};
ghost use Rattle.octets.specs.Numbers.{to_le};
ghost use Rattle.des.specs.Stored.{keys_in};
ghost use Rattle.rc4.specs.Rc4.{crypted};
ghost use Rattle.credentials.specs.Credentials.{longest_nt, keys_size, bad_nt_password, lm_keys};
ghost use Rattle.credentials.specs.Credentials.{nt_hashed, lm_hashed, response_of, schedules_of};
ghost use Rattle.credentials.specs.Credentials.{encode_keys, response_under, halves_under};
ghost use Rattle.credentials.specs.Credentials.{old_under_new, hash_under_challenge};
ghost use Rattle.credentials.specs.Credentials.{hash_from_challenge, plain_block, bad_filler};
ghost use Rattle.credentials.specs.Credentials.{sealed_as, length_in, content_for, length_told};
ghost use Rattle.credentials.specs.Credentials.{password_length, unsealed_as};

use refusals::Refusal;

// Sizes in octets: a hash, the longest password for NT and for LM, a response's keys (three DES
// keys of 7 octets), and a password's block (room for the longest one, and its length).
pub const HASH_SIZE: usize = 16;

pub const LONGEST_NT: usize = 512;

pub const LONGEST_LM: usize = 14;

const KEYS_SIZE: usize = 3 * 7;

pub const BLOCK_SIZE: usize = LONGEST_NT + 4;

// A hash's stored round keys: sixteen for each of its three keys.
pub const SCHEDULES_SIZE: usize = 3 * 16;

// The same in octets.
pub const STORED_SIZE: usize = 8 * SCHEDULES_SIZE;

// What an opened block holds: a length over 512, an odd length, or a password of this many octets.
// No Result: its error would be an enum of the first two, for one place that reads it, and no
// plainer than the three in a row.
#[derive(Clone, Copy)]
pub enum Content {
    Over,
    Odd,
    Password(usize),
}

// An opened block: what it holds, and its octets, of which a password is the last. They stand
// beside it, as they are hashed whatever it holds, so that the time does not tell which it is.
#[derive(Clone, Copy)]
pub struct Unsealed {
    pub content: Content,
    pub octets: [u8; LONGEST_NT],
}

// ---- hashes

// The password is odd or over 512 octets: refusal 8.
pub fn is_bad_nt_password(password: &[u8]) -> bool
    ensures { result ≡ bad_nt_password password.now }
{
    LONGEST_NT < password.len() || password.len() % 2 == 1
}

// A.6, NtPasswordHash(): the password's octets as passed, 0 to 512 of them, an even number; else
// refusal 8.
pub fn nt_hash(password: &[u8]) -> Result<[u8; HASH_SIZE], Refusal>
    ensures { result ≡ nt_hashed password.now }
{
    if is_bad_nt_password(password) {
        return Err(Refusal::Input);
    }
    md4::md4(password)
}

// The upper-cased password, zero-padded to 14 octets.
fn lm_keys(password: &[u8]) -> [u8; LONGEST_LM]
    ensures { result ≡ lm_keys password.now }
{
    let mut keys = octets::array_at(password, 0);
    keys.make_ascii_uppercase();
    keys
}

// Two blocks one after the other.
fn joined(a: [u8; 8], b: [u8; 8]) -> [u8; HASH_SIZE]
    ensures { result ≡ a ++ b }
{
    octets::array_at([a, b].as_flattened(), 0)
}

// A.2, LmPasswordHash(): at most 14 octets, else refusal 8; a longer password is never cut.
pub fn lm_hash(password: &[u8]) -> Result<[u8; HASH_SIZE], Refusal>
    ensures { result ≡ lm_hashed password.now }
{
    if LONGEST_LM < password.len() {
        return Err(Refusal::Input);
    }
    let keys = lm_keys(password);
    let text = *b"KGS!@#$%";
    let first = des::encrypt(octets::array_at(&keys, 0), text);
    let second = des::encrypt(octets::array_at(&keys, 7), text);
    Ok(joined(first, second))
}

// ---- responses

// A.7: the hash zero-padded to 21 octets.
fn response_keys(hash: [u8; HASH_SIZE]) -> [u8; KEYS_SIZE]
    ensures { result ≡ fixed keys_size hash }
{
    octets::array_at(&hash, 0)
}

// A.7, ChallengeResponse().
pub fn challenge_response(hash: [u8; HASH_SIZE], challenge: [u8; 8]) -> [u8; 24]
    ensures { result ≡ response_of hash challenge }
{
    des::encrypt_three(response_keys(hash), challenge)
}

// The round keys to keep beside a hash: they never change while the hash stays.
pub fn hash_schedules(hash: [u8; HASH_SIZE]) -> [u64; SCHEDULES_SIZE]
    ensures { result ≡ schedules_of hash }
{
    des::three_schedules(response_keys(hash))
}

// A number in eight octets, the least significant first.
fn eight_octets(x: u64) -> [u8; 8]
    ensures { (result ≡ to_le 8 x) × (x < 2 ^ 64) }
{
    octets::u64_to_le(x)
}

// Stored round keys in octets, as a response is made by them.
pub fn key_octets(keys: [u64; SCHEDULES_SIZE]) -> [u8; STORED_SIZE]
    ensures { (result ≡ encode_keys keys) × (keys_in result ≡ keys) }
{
    // a loop over places: of `map` and `as_flattened` the compiler moves octet by octet, which takes
    // a record of no hash five times as long
    let mut octets = [0u8; STORED_SIZE];
    for i in 0..SCHEDULES_SIZE {
        octets::copy_at(&mut octets, 8 * i, &eight_octets(keys[i]));
    }
    octets
}

// A.7 under stored round keys, which are lent in octets: those of another number of octets are
// zeros.
pub fn scheduled_response(keys: &[u8], challenge: [u8; 8]) -> [u8; 24]
    ensures { result ≡ response_under (keys_in keys.now) challenge }
{
    des::encrypt_three_under(keys, challenge)
}

// ---- a hash under a block

// Each half of a hash under a key of its own.
fn halves_under(first: [u8; 7], second: [u8; 7], hash: [u8; HASH_SIZE]) -> [u8; HASH_SIZE]
    ensures { result ≡ halves_under first second hash }
{
    let a = des::encrypt(first, octets::array_at(&hash, 0));
    let b = des::encrypt(second, octets::array_at(&hash, 8));
    joined(a, b)
}

// A.17, NtPasswordHashEncryptedWithBlock(): the old hash under the new one.
pub fn old_under_new(old: [u8; HASH_SIZE], new: [u8; HASH_SIZE]) -> [u8; HASH_SIZE]
    ensures { result ≡ old_under_new old new }
{
    let first = octets::array_at(&new, 0);
    let second = octets::array_at(&new, 7);
    halves_under(first, second, old)
}

// A.9, PasswordHashEncryptedWithBlock(): a hash under the challenge, both halves by its first seven
// octets.
pub fn hash_under_challenge(hash: [u8; HASH_SIZE], challenge: [u8; 8]) -> [u8; HASH_SIZE]
    ensures { result ≡ hash_under_challenge hash challenge }
{
    let key = octets::array_at(&challenge, 0);
    halves_under(key, key, hash)
}

// What undoes it: the hash that a field of a version 1 change holds.
pub fn hash_from_challenge(field: [u8; HASH_SIZE], challenge: [u8; 8]) -> [u8; HASH_SIZE]
    ensures { result ≡ hash_from_challenge field challenge }
{
    let key = octets::array_at(&challenge, 0);
    let a = des::decrypt(key, octets::array_at(&field, 0));
    let b = des::decrypt(key, octets::array_at(&field, 8));
    joined(a, b)
}

// ---- the sealed password

// The block before RC4: the filler, the password over its end, and the password's length.
fn plain_block(password: &[u8], filler: &[u8]) -> [u8; BLOCK_SIZE]
    requires { (length password.now ≤ longest_nt) × (length filler.now ≡ longest_nt) }
    ensures { result ≡ plain_block filler.now password.now }
{
    let n = password.len();
    let mut block = [0u8; BLOCK_SIZE];
    octets::copy(&mut block, filler);
    octets::copy_at(&mut block, LONGEST_NT - n, password);
    octets::copy_at(&mut block, LONGEST_NT, &octets::u32_to_le(n as u32));
    block
}

// The filler has not 512 octets: refusal 12.
pub fn is_bad_filler(filler: &[u8]) -> bool
    ensures { result ≡ bad_filler filler.now }
{
    filler.len() != LONGEST_NT
}

// A.12, EncryptPwBlockWithPasswordHash(): the password under the old hash. Refusals 8 (password),
// then 12 (filler).
pub fn seal(
    old: [u8; HASH_SIZE],
    password: &[u8],
    filler: &[u8],
) -> Result<[u8; BLOCK_SIZE], Refusal>
    ensures { result ≡ sealed_as old password.now filler.now }
{
    if is_bad_nt_password(password) {
        return Err(Refusal::Input);
    }
    if is_bad_filler(filler) {
        return Err(Refusal::Filler);
    }
    let mut block = plain_block(password, filler);
    rc4::rc4(&old, &mut block)?;
    Ok(block)
}

// What a length of the opened block says: over 512 before odd.
#[tactic(auto, unfolding(crate::specs::Credentials::content_for))]
fn content_of(n: u32) -> Content
    ensures { result ≡ content_for n }
{
    let n = n as usize;
    if LONGEST_NT < n {
        return Content::Over;
    }
    if n % 2 == 1 {
        return Content::Odd;
    }
    Content::Password(n)
}

// Opens a block under the old hash.
pub fn unseal(old: [u8; HASH_SIZE], block: [u8; BLOCK_SIZE]) -> Unsealed
    ensures { (result ≡ unsealed_as old block)
        × (length_told result.content ≡ password_length (length_in (crypted old block))) }
{
    let mut plain = block;
    rc4::rc4(&old, &mut plain).unwrap();
    let content = content_of(octets::u32_from_le(plain[512], plain[513], plain[514], plain[515]));
    Unsealed {
        content,
        octets: octets::array_at(&plain, 0),
    }
}
