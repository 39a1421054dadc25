// Lists of octets: parts, copies, agreement, numbers of two, four and eight octets, digits. Every
// function is total.
#![tactic(auto)]

mod hex;

ghost use Rattle.std.specs.Prelude.{◌≡◌, cond, ◌&&◌, [], ◌∷◌, map, ◌%◌, ◌<◌, min};
ghost use Rattle.octets.specs.Parts.{part, over, over_at, fixed, agrees};
ghost use Rattle.octets.specs.Numbers.{from_be, to_be, from_le, to_le};
ghost use Rattle.octets.specs.Digits.{between, digit_of, hex_of, all_below};
ghost use Rattle.octets.specs.Split.{before};

pub use hex::{decode_hex, encode_hex};

// ---- parts

// The n octets of s from the place at on, or as many of them as there are.
pub fn part_of(s: &[u8], at: usize, n: usize) -> &[u8]
    ensures { result.now ≡ part at n s.now }
{
    let rest = &s[at.min(s.len())..];
    &rest[..n.min(rest.len())]
}

// What stands before the first octet c of s, or all of s where it has none.
pub fn up_to(s: &[u8], c: u8) -> &[u8]
    ensures { result.now ≡ before c s.now }
{
    let found = s.iter().position(|octet| *octet == c);
    &s[..found.unwrap_or(s.len())]
}

// The N octets of s from the place at on, as for a key, a block or a hash; 0 for those that s does
// not reach.
pub fn array_at<const N: usize>(s: &[u8], at: usize) -> [u8; N]
    ensures { result ≡ fixed N (part at N s.now) }
{
    let mut octets = [0u8; N];
    copy(&mut octets, part_of(s, at, N));
    octets
}

// Lays source over the front of target: what it does not reach is unchanged, and what of it finds
// no place is left out.
pub fn copy(target: &mut [u8], source: &[u8])
    ensures { target.new ≡ over source.now target.old }
{
    let n = target.len().min(source.len());
    // a loop, and not the library's copy: of that the compiler made calls of memmove, which a
    // program without C's library would have to bring
    for i in 0..n {
        target[i] = source[i];
    }
}

// The same from the place at on; nothing where target does not reach it.
pub fn copy_at(target: &mut [u8], at: usize, source: &[u8])
    ensures { target.new ≡ over_at at source.now target.old }
{
    let a = at.min(target.len());
    copy(&mut target[a..], source);
}

// ---- without a branch, so that the time does not tell what holds

// x where both conditions hold, else y. The place in a row of three decides: of a conditional, or
// of a product with one condition, the compiler makes a branch again.
pub fn where_both(a: bool, b: bool, x: u8, y: u8) -> u8
    ensures { result ≡ cond (a && b) x y }
{
    let row = [y, y, x];
    row[usize::from(a) + usize::from(b)]
}

// x under a mask of 255, y under a mask of 0.
fn masked(mask: u8, x: u8, y: u8) -> u8
    ensures { (mask ≡ 255 → result ≡ x) × (mask ≡ 0 → result ≡ y) }
{
    y ^ (mask & (x ^ y))
}

// Copies where both conditions hold, and leaves target as it is where not: in either case the same
// octets are read and written.
pub fn copy_if_both(a: bool, b: bool, target: &mut [u8], source: &[u8])
    ensures { target.new
        ≡ cond (a && b) (over source.now target.old) target.old }
{
    let n = target.len().min(source.len());
    let mask = where_both(a, b, 255, 0);
    for i in 0..n {
        target[i] = masked(mask, source[i], target[i]);
    }
}

// Whether both conditions hold and x and y are the same octets. Every octet is looked at, wherever
// they differ, and a condition that does not hold counts as a difference.
pub fn agree_if_both(a: bool, b: bool, x: &[u8], y: &[u8]) -> bool
    ensures { result ≡ ((a && b) && agrees x.now y.now) }
{
    if x.len() != y.len() {
        return false;
    }
    let conditions = where_both(a, b, 0, 255);
    let differences = x.iter().zip(y).fold(conditions, |d, (p, q)| d | (p ^ q));
    differences == 0
}

// Whether a and b are the same octets. The time tells nothing of where they differ.
pub fn agree(a: &[u8], b: &[u8]) -> bool
    ensures { result ≡ agrees a.now b.now }
{
    agree_if_both(true, true, a, b)
}

// ---- numbers
//
// Each is the library's method. They say it in the words of specs/Numbers, as whoever reads or
// writes a field of a packet does.

// Two octets, the most significant first.
pub fn u16_from_be(a: u8, b: u8) -> u16
    ensures { result ≡ from_be (a ∷ b ∷ []) }
{
    u16::from_be_bytes([a, b])
}

pub fn u16_to_be(x: u16) -> [u8; 2]
    ensures { result ≡ to_be 2 x }
{
    x.to_be_bytes()
}

// Four octets, the most significant first.
pub fn u32_from_be(a: u8, b: u8, c: u8, d: u8) -> u32
    ensures { result ≡ from_be (a ∷ b ∷ c ∷ d ∷ []) }
{
    u32::from_be_bytes([a, b, c, d])
}

pub fn u32_to_be(x: u32) -> [u8; 4]
    ensures { result ≡ to_be 4 x }
{
    x.to_be_bytes()
}

// Four octets, the least significant first.
pub fn u32_from_le(a: u8, b: u8, c: u8, d: u8) -> u32
    ensures { result ≡ from_le (a ∷ b ∷ c ∷ d ∷ []) }
{
    u32::from_le_bytes([a, b, c, d])
}

pub fn u32_to_le(x: u32) -> [u8; 4]
    ensures { result ≡ to_le 4 x }
{
    x.to_le_bytes()
}

// Eight octets, the most significant first.
pub fn u64_from_be(b: [u8; 8]) -> u64
    ensures { result ≡ from_be b }
{
    u64::from_be_bytes(b)
}

pub fn u64_to_be(x: u64) -> [u8; 8]
    ensures { result ≡ to_be 8 x }
{
    x.to_be_bytes()
}

// Eight octets, the least significant first.
pub fn u64_to_le(x: u64) -> [u8; 8]
    ensures { result ≡ to_le 8 x }
{
    x.to_le_bytes()
}

// ---- digits

// The value of an octet as a hexadecimal digit of either case; 16 where it is none.
#[tactic(auto, unfolding(crate::specs::Digits::digit_of))]
pub fn digit_value(octet: u8) -> u8
    ensures { result ≡ digit_of octet }
{
    match octet {
        b'0'..=b'9' => octet - b'0',
        b'A'..=b'F' => octet - b'A' + 10,
        b'a'..=b'f' => octet - b'a' + 10,
        _ => 16,
    }
}

// Whether all are digits of the base. Every octet is looked at: with an early return the compiler
// branches on each digit's value, and on random digits that costs more than the return saves.
pub fn are_digits(digits: &[u8], base: u8) -> bool
    ensures { result ≡ all_below base (map digit_of digits.now) }
{
    digits
        .iter()
        .fold(true, |all, digit| all & (digit_value(*digit) < base))
}

// The upper-case hexadecimal digit of value, of which the low four bits count.
#[tactic(auto, unfolding(crate::specs::Digits::hex_of))]
pub fn hex_digit(value: u8) -> u8
    ensures { result ≡ hex_of (value % 16) }
{
    let v = value % 16;
    if v < 10 { v + b'0' } else { v - 10 + b'A' }
}
