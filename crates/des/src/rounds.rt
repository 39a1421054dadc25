// The rounds: the cipher function f, and a block under round keys, wherever these come from.
ghost use Rattle.std.specs.Prelude.{◌≡◌, ◌++◌, ◌+◌, ◌*◌, ◌/◌, ◌%◌};
ghost use Rattle.std.specs.Int.Bits.{bit_xor};
ghost use Rattle.octets.specs.Numbers.{to_be};
ghost use Rattle.des.specs.Tables.{ip, fp};
ghost use Rattle.des.specs.Des.{permute, cipher_f, crypt};
ghost use Rattle.des.specs.Inner.{spread};
ghost use Rattle.des.specs.Stored.{unpack_key};

use crate::permutations;
use crate::round_keys::RoundKeys;
use crate::tables::folded_at;

// ---- the cipher function

// The last bit of r, r, and its first bit: each six bits of E stand together in it.
#[tactic(auto, unfolding(crate::specs::Inner::spread))]
fn spread_bits(r: u32) -> u64
    ensures { result ≡ spread r }
{
    let x = u64::from(r);
    ((x % 2) << 33) ^ (x << 1) ^ (x >> 31)
}

// f(R, K), where k is K as it is stored: the selection functions at the six-bit groups of
// K xor E(R), with P folded in. The groups of k stand as those of E(R) do in two copies of the
// spread word, so that two exclusive ors serve all eight.
#[tactic(auto, using(crate::proofs::Stored::stored_right))]
fn cipher_function(r: u32, k: u64) -> u32
    ensures { result ≡ cipher_f r (unpack_key k) }
{
    let w = spread_bits(r);
    let a = (w >> 4) ^ (k >> 32);
    let b = w ^ k;
    let s1 = folded_at(0, a >> 24);
    let s2 = folded_at(1, b >> 24);
    let s3 = folded_at(2, a >> 16);
    let s4 = folded_at(3, b >> 16);
    let s5 = folded_at(4, a >> 8);
    let s6 = folded_at(5, b >> 8);
    let s7 = folded_at(6, a);
    let s8 = folded_at(7, b);
    s1 ^ s2 ^ s3 ^ s4 ^ s5 ^ s6 ^ s7 ^ s8
}

// ---- a block in its rounds

// The halves L and R of a block.
#[derive(Clone, Copy)]
struct Halves {
    l: u32,
    r: u32,
}

impl Halves {
    // The halves of IP of a block.
    fn of_block(x: u64) -> Halves
        ensures { (result.l ≡ permute 64 ip x / 0x1_0000_0000)
            × (result.r ≡ permute 64 ip x % 0x1_0000_0000) }
    {
        let y = permutations::initial_permutation(x);
        Halves {
            l: (y / 0x1_0000_0000) as u32,
            r: (y % 0x1_0000_0000) as u32,
        }
    }

    // The next round, by its round key as it is stored: L' = R and R' = L xor f(R, K).
    fn round(self, k: u64) -> Halves
        ensures { (result.l ≡ self.r)
            × (result.r ≡ bit_xor self.l (cipher_f self.r (unpack_key k))) }
    {
        Halves {
            l: self.r,
            r: self.l ^ cipher_function(self.r, k),
        }
    }

    // The output block: the inverse of IP of the preoutput block R L.
    fn output_block(self) -> u64
        ensures { result ≡ permute 64 fp (self.r * 0x1_0000_0000 + self.l) }
    {
        permutations::final_permutation(u64::from(self.r) * 0x1_0000_0000 + u64::from(self.l))
    }
}

// ---- a block under round keys

// A block of 64 bits under sixteen round keys.
#[tactic(auto, using(crate::proofs::Round::no_rounds, crate::proofs::Round::one_of_sixteen))]
pub(crate) fn crypt_block<K: RoundKeys>(keys: &K, x: u64) -> u64
    ensures { result ≡ crypt (K.keys keys.now) x }
{
    let mut halves = Halves::of_block(x);
    for i in 0..16 {
        halves = halves.round(keys.key(i));
    }
    halves.output_block()
}

// A block of 64 bits under the round keys of three keys, the three in step: a round of one does not
// wait for a round of another. One function for an array of one block or three would be no plainer:
// a loop within the loop, and another for the output, in the place of a line for each block.
#[tactic(auto, using(crate::proofs::Round::no_rounds, crate::proofs::Round::one_of_sixteen))]
pub(crate) fn crypt_three<K: RoundKeys>(k1: &K, k2: &K, k3: &K, x: u64) -> [u8; 24]
    ensures { result ≡ to_be 8 (crypt (K.keys k1.now) x) ++ (to_be 8 (crypt (K.keys k2.now) x)
        ++ to_be 8 (crypt (K.keys k3.now) x)) }
{
    let mut h1 = Halves::of_block(x);
    let mut h2 = h1;
    let mut h3 = h1;
    for i in 0..16 {
        h1 = h1.round(k1.key(i));
        h2 = h2.round(k2.key(i));
        h3 = h3.round(k3.key(i));
    }
    let mut blocks = [0u8; 24];
    let (first, rest) = blocks.split_at_mut(8);
    let (second, third) = rest.split_at_mut(8);
    first.copy_from_slice(&octets::u64_to_be(h1.output_block()));
    second.copy_from_slice(&octets::u64_to_be(h2.output_block()));
    third.copy_from_slice(&octets::u64_to_be(h3.output_block()));
    blocks
}
