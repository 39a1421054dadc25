// UTF-8 (RFC 3629).
ghost use Rattle.std.specs.Prelude.{◌≡◌, ◌<◌};
ghost use Rattle.unicode_text.specs.Utf8.{utf8_of, utf8_first};
ghost use Rattle.unicode_text.specs.Utf8.{is_tail, char_if_valid, char_from_octets};
ghost use Rattle.unicode_text.specs.Inner.{found};

use crate::Coded;
use crate::encoding::{Char, Encoding, is_scalar, octet_at};

pub(crate) struct Utf8;

impl Encoding for Utf8 {
    ghost first = { utf8_first };

    ghost code = { utf8_of };

    #[tactic(auto, unfolding(crate::specs::Utf8::utf8_first))]
    fn first(s: &[u8]) -> Option<Char> {
        char_from_octets(
            octet_at(s, 0),
            octet_at(s, 1),
            octet_at(s, 2),
            octet_at(s, 3),
        )
    }

    // Section 3, the table.
    #[tactic(auto, unfolding(crate::specs::Utf8::utf8_of))]
    fn encode(n: u32) -> Coded<4> {
        if n < 0x80 {
            return Coded {
                octets: [n as u8, 0, 0, 0],
                size: 1,
            };
        }
        let last = (0x80 + n % 64) as u8;
        if n < 0x800 {
            return Coded {
                octets: [(0xc0 + n / 64) as u8, last, 0, 0],
                size: 2,
            };
        }
        let third = (0x80 + n / 64 % 64) as u8;
        if n < 0x10000 {
            return Coded {
                octets: [(0xe0 + n / 4096) as u8, third, last, 0],
                size: 3,
            };
        }
        let second = (0x80 + n / 4096 % 64) as u8;
        Coded {
            octets: [(0xf0 + n / 262144 % 8) as u8, second, third, last],
            size: 4,
        }
    }
}

fn is_tail(octet: u8) -> bool
    ensures { result ≡ is_tail octet }
{
    (0x80..=0xbf).contains(&octet)
}

fn char_if_valid(width: usize, least: u32, tails: bool, value: u32) -> Option<Char>
    requires { 0 < width }
    ensures { result ≡ found (char_if_valid width least tails value) }
{
    if tails && least <= value && is_scalar(value) {
        return Some(Char { width, value });
    }
    None
}

fn char_from_octets(a: u8, b: u8, c: u8, d: u8) -> Option<Char>
    ensures { result ≡ found (char_from_octets a b c d) }
{
    match a {
        0..=0x7f => Some(Char {
            width: 1,
            value: u32::from(a),
        }),
        0xc0..=0xdf => char_if_valid(
            2,
            0x80,
            is_tail(b),
            u32::from(a % 32) * 64 + u32::from(b % 64),
        ),
        0xe0..=0xef => char_if_valid(
            3,
            0x800,
            is_tail(b) && is_tail(c),
            u32::from(a % 16) * 4096 + u32::from(b % 64) * 64 + u32::from(c % 64),
        ),
        0xf0..=0xf7 => char_if_valid(
            4,
            0x10000,
            is_tail(b) && is_tail(c) && is_tail(d),
            u32::from(a % 8) * 262144
                + u32::from(b % 64) * 4096
                + u32::from(c % 64) * 64
                + u32::from(d % 64),
        ),
        _ => None,
    }
}
