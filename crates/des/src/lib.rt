// DES (FIPS 46-2): a block of eight octets under a key of seven, the 56 bits of a DES key that are
// not parity.
#![tactic(auto)]

mod permutations;
mod round_keys;
mod rounds;
mod schedule;
mod tables;

ghost use Rattle.std.specs.Prelude.{◌≡◌, ◌<◌};
ghost use Rattle.des.specs.Des.{half, expand_key, drop_parity};
ghost use Rattle.des.specs.Des.{des_encrypt, des_decrypt, des_three};
ghost use Rattle.des.specs.Stored.{three_schedules, three_under, keys_in};

use round_keys::{KeptKeys, Opposite};
use rounds::{crypt_block, crypt_three};
use schedule::{MadeKeys, fill_schedule};

// ---- keys of seven octets and of eight

// The 56 bits of a key in the top seven bits of eight octets, the parity bits clear.
#[tactic(auto, using(crate::proofs::Sizes::expand_written))]
pub fn expand_key(key: [u8; 7]) -> [u8; 8]
    ensures { result ≡ expand_key key }
{
    octets::u64_to_be(schedule::key_number(key))
}

// The top seven bits of an octet.
fn top_seven(o: u8) -> u64
    ensures { (result ≡ half o) × (result < 128) }
{
    u64::from(o / 2)
}

// The top seven bits of each octet of a key, joined to seven octets.
pub fn drop_parity(key: [u8; 8]) -> [u8; 7]
    ensures { result ≡ drop_parity key }
{
    let mut bits: u64 = 0;
    for octet in key {
        bits = bits * 128 + top_seven(octet);
    }
    octets::array_at(&octets::u64_to_be(bits), 1)
}

// ---- DES

// A block under a key: each round key is made in its round.
#[tactic(auto, unfolding(crate::specs::Des::des_encrypt))]
pub fn encrypt(key: [u8; 7], block: [u8; 8]) -> [u8; 8]
    ensures { result ≡ des_encrypt key block }
{
    octets::u64_to_be(crypt_block(&MadeKeys::of_key(key), octets::u64_from_be(block)))
}

// What undoes encrypt under the same key: the round keys in the opposite order.
#[tactic(auto, unfolding(crate::specs::Des::des_decrypt))]
pub fn decrypt(key: [u8; 7], block: [u8; 8]) -> [u8; 8]
    ensures { result ≡ des_decrypt key block }
{
    let keys = Opposite {
        keys: MadeKeys::of_key(key),
    };
    octets::u64_to_be(crypt_block(&keys, octets::u64_from_be(block)))
}

// One block under each of the three keys of 21 octets.
pub fn encrypt_three(keys: [u8; 21], block: [u8; 8]) -> [u8; 24]
    ensures { result ≡ des_three keys block }
{
    crypt_three(
        &MadeKeys::of_key(octets::array_at(&keys, 0)),
        &MadeKeys::of_key(octets::array_at(&keys, 7)),
        &MadeKeys::of_key(octets::array_at(&keys, 14)),
        octets::u64_from_be(block),
    )
}

// ---- DES under stored round keys

// The octets of a stored schedule, and of three.
const SCHEDULE_SIZE: usize = 128;

const STORED_SIZE: usize = 3 * SCHEDULE_SIZE;

// What is read where none are lent that have this size.
static NO_SCHEDULES: [u8; STORED_SIZE] = [0; STORED_SIZE];

// The stored round keys of the three keys of 21 octets, which never change while the keys stay.
pub fn three_schedules(keys: [u8; 21]) -> [u64; 48]
    ensures { result ≡ three_schedules keys }
{
    let mut schedules = [0u64; 48];
    let (first, rest) = schedules.split_at_mut(16);
    let (second, third) = rest.split_at_mut(16);
    fill_schedule(first, octets::array_at(&keys, 0));
    fill_schedule(second, octets::array_at(&keys, 7));
    fill_schedule(third, octets::array_at(&keys, 14));
    schedules
}

// One block under each of three stored schedules, which are lent in octets; zeros where there are
// not as many octets as they take.
pub fn encrypt_three_under(keys: &[u8], block: [u8; 8]) -> [u8; 24]
    ensures { result ≡ three_under (keys_in keys.now) block }
{
    let schedules = if keys.len() == STORED_SIZE {
        keys
    } else {
        &NO_SCHEDULES
    };
    let (first, rest) = schedules.split_at(SCHEDULE_SIZE);
    let (second, third) = rest.split_at(SCHEDULE_SIZE);
    crypt_three(
        &KeptKeys { octets: first },
        &KeptKeys { octets: second },
        &KeptKeys { octets: third },
        octets::u64_from_be(block),
    )
}
