// Octets that a word names.
ghost use Rattle.std.specs.Prelude.{◌≤◌, length};

use super::words;

// The octet that two hexadecimal digits make.
fn octet_of(high: u8, low: u8) -> u8 {
    octets::digit_value(high) % 16 * 16 + octets::digit_value(low) % 16
}

// Octets from hexadecimal digits, as many as room takes.
fn decode_digits<'a>(s: &[u8], room: &'a mut [u8]) -> &'a mut [u8]
    ensures { length result.now ≤ length room.old }
{
    let (pairs, _odd) = s.as_chunks::<2>();
    let n = pairs.len().min(room.len());
    let out = &mut room[..n];
    for (octet, [high, low]) in out.iter_mut().zip(pairs) {
        *octet = octet_of(*high, *low);
    }
    out
}

// n octets of one value, as many as room takes.
fn repeated(value: u8, n: usize, room: &mut [u8]) -> &mut [u8]
    ensures { length result.now ≤ length room.old }
{
    let n = n.min(room.len());
    let out = &mut room[..n];
    out.fill(value);
    out
}

// The octets that a word names: `-` none, `HH*N` one octet N times, else pairs of digits.
fn decode<'a>(word: &[u8], room: &'a mut [u8]) -> &'a mut [u8]
    ensures { length result.now ≤ length room.old }
{
    match word {
        [high, low, b'*', n @ ..] => repeated(
            octet_of(*high, *low),
            words::number(octets::part_of(n, 0, 9)),
            room,
        ),
        _ => decode_digits(word, room),
    }
}

// The octets that word k of a line names, as many as room takes: the front of it.
pub fn octets_in<'a>(line: &[u8], k: usize, room: &'a mut [u8]) -> &'a mut [u8]
    ensures { length result.now ≤ length room.old }
{
    decode(words::word(line, k), room)
}

// The octets of word k, where it names a certain number of them; 0 for those that are missing.
pub fn octets<const N: usize>(line: &[u8], k: usize) -> [u8; N] {
    let mut out = [0u8; N];
    octets_in(line, k, &mut out);
    out
}
