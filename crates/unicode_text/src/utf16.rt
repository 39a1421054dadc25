// UTF-16 (RFC 2781), the least significant octet of each unit first.
ghost use Rattle.std.specs.Prelude.{◌≡◌, ◌<◌, ◌++◌};
ghost use Rattle.octets.specs.Numbers.{to_le};
ghost use Rattle.unicode_text.specs.Utf16.{utf16_of, is_high, is_low, unit_at, char_from_units};
ghost use Rattle.unicode_text.specs.Utf16.{utf16_first};
ghost use Rattle.unicode_text.specs.Inner.{found};

use crate::Coded;
use crate::encoding::{Char, Encoding, octet_at};

pub(crate) struct Utf16;

impl Encoding for Utf16 {
    ghost first = { utf16_first };

    ghost code = { utf16_of };

    #[tactic(auto, unfolding(crate::specs::Utf16::utf16_first))]
    fn first(s: &[u8]) -> Option<Char> {
        char_from_units(s.len(), unit_at(s, 0), unit_at(s, 2))
    }

    // Section 2.1.
    #[tactic(auto, unfolding(crate::specs::Utf16::utf16_of))]
    fn encode(n: u32) -> Coded<4> {
        if n < 0x10000 {
            let [first, second] = (n as u16).to_le_bytes();
            return Coded {
                octets: [first, second, 0, 0],
                size: 2,
            };
        }
        let high = (n - 0x10000) / 1024;
        let low = (n - 0x10000) % 1024;
        pair(0xd800 + high, 0xdc00 + low)
    }
}

// Two units, one behind the other.
fn pair(high: u32, low: u32) -> Coded<4>
    ensures { result ≡ to_le 2 high ++ to_le 2 low }
{
    Coded {
        octets: [
            (high % 256) as u8,
            (high / 256 % 256) as u8,
            (low % 256) as u8,
            (low / 256 % 256) as u8,
        ],
        size: 4,
    }
}

// The unit from a place on; a missing octet counts as 0.
fn unit_at(s: &[u8], i: usize) -> u16
    requires { i < 4 }
    ensures { result ≡ unit_at s.now i }
{
    u16::from_le_bytes([octet_at(s, i), octet_at(s, i + 1)])
}

fn is_high(unit: u16) -> bool
    ensures { result ≡ is_high unit }
{
    (0xd800..=0xdbff).contains(&unit)
}

fn is_low(unit: u16) -> bool
    ensures { result ≡ is_low unit }
{
    (0xdc00..=0xdfff).contains(&unit)
}

fn char_from_units(n: usize, unit: u16, next: u16) -> Option<Char>
    ensures { result ≡ found (char_from_units n unit next) }
{
    if n < 2 {
        return None;
    }
    if is_high(unit) {
        if 4 <= n && is_low(next) {
            return Some(Char {
                width: 4,
                value: 0x10000 + (u32::from(unit - 0xd800) * 1024 + u32::from(next - 0xdc00)),
            });
        }
        return None;
    }
    (!is_low(unit)).then_some(Char {
        width: 2,
        value: u32::from(unit),
    })
}
