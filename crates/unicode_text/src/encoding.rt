// What UTF-8 and UTF-16 have in common: the character with which octets begin, and its octets.
ghost use Rattle.std.specs.Prelude.{◌≡◌, ℕ, ◌<◌, ◌≤◌, List, length, get_or, IfSome};
ghost use Rattle.unicode_text.specs.declared.encoding.Char.{Char};
ghost use Rattle.unicode_text.specs.Scalars.{is_scalar};
ghost use Rattle.unicode_text.specs.Inner.{found};

use crate::Coded;

// The scalar value with which octets begin, and how many of them tell it.
#[derive(Clone, Copy)]
pub(crate) struct Char {
    pub width: usize,
    pub value: u32,
}

pub(crate) trait Encoding {
    // the character with which a list begins
    ghost first: { List ℕ → Char };

    // the octets of a character
    ghost code: { ℕ → List ℕ };

    // The character with which octets begin, of which there is at least one: none where they are
    // malformed.
    fn first(s: &[u8]) -> Option<Char>
        requires { 0 < length s.now }
        ensures character { result ≡ found (first s.now) }
        ensures within { IfSome result (λ c. c.width ≤ length s.now) };

    fn encode(n: u32) -> Coded<4>
        ensures { result ≡ code n };
}

// No surrogate, and at most U+10FFFF.
pub(crate) fn is_scalar(n: u32) -> bool
    ensures { result ≡ is_scalar n }
{
    char::from_u32(n).is_some()
}

// The octet at a place, and 0 where there is none.
pub(crate) fn octet_at(s: &[u8], i: usize) -> u8
    ensures { result ≡ get_or s.now i 0 }
{
    s.get(i).copied().unwrap_or(0)
}
