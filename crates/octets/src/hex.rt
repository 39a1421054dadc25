// Octets as hexadecimal digits, two to an octet.
ghost use Rattle.std.specs.Prelude.{◌≡◌, true, cond, map, ◌*◌, ◌+◌, ◌<◌, length, get_or};
ghost use Rattle.octets.specs.Parts.{over};
ghost use Rattle.octets.specs.Digits.{digit_of, all_below, pairs, hex_text};

use crate::{are_digits, digit_value, hex_digit};

// ---- written

// The digit k of the text.
fn digit_at(s: &[u8], k: usize) -> u8
    requires { k < 2 * length s.now }
    ensures { result ≡ get_or (hex_text s.now) k 0 }
{
    let octet = s[k / 2];
    if k % 2 == 0 {
        return hex_digit(octet / 16);
    }
    hex_digit(octet)
}

// Lays the digits of s, in upper case, over the front of out.
pub fn encode_hex(s: &[u8], out: &mut [u8])
    ensures { out.new ≡ over (hex_text s.now) out.old }
{
    for k in 0..out.len().min(2 * s.len()) {
        out[k] = digit_at(s, k);
    }
}

// ---- read

// The octet i of the digits.
fn octet_at(s: &[u8], i: usize) -> u8
    requires { (2 * i + 1 < length s.now) × (all_below 16 (map digit_of s.now) ≡ true) }
    ensures { result ≡ get_or (pairs (map digit_of s.now)) i 0 }
{
    digit_value(s[2 * i]) * 16 + digit_value(s[2 * i + 1])
}

// Lays the octets that the digits of s make over the front of out; nothing where one is no digit.
// An odd last digit is left out.
pub fn decode_hex(s: &[u8], out: &mut [u8])
    ensures { out.new
        ≡ cond (all_below 16 (map digit_of s.now))
        (over (pairs (map digit_of s.now)) out.old) out.old }
{
    if !are_digits(s, 16) {
        return;
    }
    for i in 0..out.len().min(s.len() / 2) {
        out[i] = octet_at(s, i);
    }
}
