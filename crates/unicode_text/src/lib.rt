// An NT password from the text that a user types (UTF-8, RFC 3629), and the text of a password. A
// password is of 16-bit characters, the least significant octet first (RFC 2433 A.6): UTF-16, with
// a pair of surrogates for a character over U+FFFF (RFC 2781).
#![tactic(auto)]

mod coded;
mod encoding;
mod utf16;
mod utf8;

ghost use Rattle.std.specs.Prelude.{◌≡◌, cond};
ghost use Rattle.unicode_text.specs.Scalars.{well_formed, recoded};
ghost use Rattle.unicode_text.specs.Password.{fitted, password_of, text_of};

pub use coded::Coded;
use encoding::Encoding;
use refusals::Refusal;
use utf8::Utf8;
use utf16::Utf16;

// Sizes in octets: the longest NT password, and the text of one (256 units of at most 3 octets).
pub const PASSWORD_MAX: usize = 512;

pub const TEXT_MAX: usize = 768;

// Whether nothing in s is malformed.
fn is_well_formed<E: Encoding>(s: &[u8]) -> bool
    ensures { result ≡ well_formed E.first s.now }
{
    let mut rest = s;
    while !rest.is_empty() {
        let Some(char) = E::first(rest) else {
            return false;
        };
        rest = &rest[char.width..];
    }
    true
}

// Why s has no place in the other encoding: it is malformed, or else too long.
fn too_long<E: Encoding>(s: &[u8]) -> Refusal
    ensures { result ≡ cond (well_formed E.first s.now) Refusal.Input Refusal.Text }
{
    if is_well_formed::<E>(s) {
        Refusal::Input
    } else {
        Refusal::Text
    }
}

// What s is in another encoding, if that is at most N octets.
fn recode<From: Encoding, To: Encoding, const N: usize>(s: &[u8]) -> Result<Coded<N>, Refusal>
    ensures { result ≡ fitted N (recoded From.first To.code s.now) }
{
    let mut done = Coded::<N>::new();
    let mut rest = s;
    while !rest.is_empty() {
        let Some(char) = From::first(rest) else {
            return Err(Refusal::Text);
        };
        let octets = To::encode(char.value);
        if N - done.len() < octets.len() {
            return Err(too_long::<From>(rest));
        }
        done.append(octets.as_slice());
        rest = &rest[char.width..];
    }
    Ok(done)
}

// The password of a text in UTF-8. Refusals 101 (the text is malformed anywhere), then 8 (the
// password is over 512 octets). The text is octets and no `&str`: it comes from C, and what is
// malformed is answered with 101.
pub fn password_of(text: &[u8]) -> Result<Coded<PASSWORD_MAX>, Refusal>
    ensures { result ≡ password_of text.now }
{
    recode::<Utf8, Utf16, PASSWORD_MAX>(text)
}

// The text of a password in UTF-8. Refusals 101 (an odd number of octets, or a surrogate that is
// not paired), then 8 (over 512 octets).
pub fn text_of(password: &[u8]) -> Result<Coded<TEXT_MAX>, Refusal>
    ensures { result ≡ text_of password.now }
{
    if PASSWORD_MAX < password.len() {
        return Err(too_long::<Utf16>(password));
    }
    recode::<Utf16, Utf8, TEXT_MAX>(password)
}
