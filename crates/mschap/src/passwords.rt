// Passwords: made of a text or of 16-bit characters, read as a text, and hashed.
ghost use Rattle.std.specs.Prelude.{◌≡◌};
ghost use Rattle.layouts.specs.Call.{Fills, sized};
ghost use Rattle.packets.specs.Sizes.{hash_size};
ghost use Rattle.refusals.specs.Refusal.{told};
ghost use Rattle.credentials.specs.Credentials.{lm_hashed};
ghost use Rattle.mschap.specs.Answers.{octets_or_zeros};
ghost use Rattle.mschap.specs.Passwords.{MakePasswordCall};
ghost use Rattle.mschap.specs.Passwords.{MakeCharactersCall};
ghost use Rattle.mschap.specs.Passwords.{ReadPasswordCall, hash_arguments, HashCall};

use crate::ciphers::fill_answer;
use layouts::{
    BAD_ARGUMENT, PASSWORD_SIZE, decode_password, is_encoded_password, put_password, refuse,
    refused,
};
use packets::HASH_SIZE;
use refusals::Refusal;

// Makes a password of a text in UTF-8. 101: malformed. 8: too long.
#[unsafe(no_mangle)]
pub extern "C" fn mschap_make_password(text: &[u8], password: &mut [u8]) -> u32
    ensures { MakePasswordCall text.now password.old result
        password.new }
{
    match unicode_text::password_of(text) {
        Ok(made) => put_password(made.as_slice(), password),
        Err(refusal) => refuse(refusal, PASSWORD_SIZE, password),
    }
}

// Makes a password of 16-bit characters. 8: an odd number of bytes, or too many.
#[unsafe(no_mangle)]
pub extern "C" fn mschap_make_password_utf16(characters: &[u8], password: &mut [u8]) -> u32
    ensures { MakeCharactersCall characters.now password.old result
        password.new }
{
    if credentials::is_bad_nt_password(characters) {
        return refuse(Refusal::Input, PASSWORD_SIZE, password);
    }
    put_password(characters, password)
}

// ---- read

// The password as a text in UTF-8, at the front of text, and its length. 101: it is malformed. 9:
// too little room.
#[unsafe(no_mangle)]
pub extern "C" fn mschap_read_password(password: &[u8], text: &mut [u8], length: &mut usize) -> u32
    ensures { ReadPasswordCall password.now text.old
        length.old result text.new length.new }
{
    if !is_encoded_password(password) {
        return BAD_ARGUMENT;
    }
    let read = match unicode_text::text_of(decode_password(password)) {
        Ok(read) => read,
        Err(refusal) => return refused(refusal),
    };
    if text.len() < read.len() {
        return refused(Refusal::Room);
    }
    octets::copy(text, read.as_slice());
    *length = read.len();
    0
}

// ---- hashed

#[tactic(auto, unfolding(crate::specs::Passwords::hash_arguments))]
fn are_hash_arguments(password: &[u8], hash: &[u8]) -> bool
    ensures { result ≡ hash_arguments password.now hash.now }
{
    is_encoded_password(password) && hash.len() == HASH_SIZE
}

// The NT hash of a password.
#[unsafe(no_mangle)]
pub extern "C" fn mschap_nt_hash(password: &[u8], hash: &mut [u8]) -> u32
    ensures { HashCall password.now hash.old result hash.new }
{
    if !are_hash_arguments(password, hash) {
        return BAD_ARGUMENT;
    }
    fill_answer(credentials::nt_hash(decode_password(password)), hash)
}

// The LM hash of a password of at most 14 bytes. 8: a longer password.
#[unsafe(no_mangle)]
pub extern "C" fn mschap_lm_hash(password: &[u8], hash: &mut [u8]) -> u32
    ensures { Fills (sized hash_size hash.old)
        (told (lm_hashed password.now)) (octets_or_zeros hash_size (lm_hashed password.now))
        hash.old result hash.new }
{
    fill_answer(credentials::lm_hash(password), hash)
}
