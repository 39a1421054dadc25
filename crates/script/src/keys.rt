// The key schedules of a hash: 48 numbers, each of eight octets, the most significant first.
use super::digits;
use std::array;

// Whether word k names 16 octets: a hash, whose schedules are meant.
pub fn names_hash(line: &[u8], k: usize) -> bool {
    let mut octets = [0u8; 384];
    digits::octets_in(line, k, &mut octets).len() == 16
}

// The numbers that word k names by their octets; zeros for `-`, and for those that it does not
// reach.
pub fn numbers(line: &[u8], k: usize) -> [u64; 48] {
    let octets: [u8; 384] = digits::octets(line, k);
    array::from_fn(|i| octets::u64_from_be(octets::array_at(&octets, 8 * i)))
}
