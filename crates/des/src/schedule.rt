// The key schedule: PC-1, and the round key of each round.
ghost use Rattle.std.specs.Prelude.{◌≡◌, List, ℕ, ◌+◌, ◌*◌, ◌%◌, ◌<◌, get_or, length, map};
ghost use Rattle.octets.specs.Numbers.{from_be};
ghost use Rattle.des.specs.Tables.{pc1, pc2};
ghost use Rattle.des.specs.Des.{permute, expand_key, schedule_of};
ghost use Rattle.des.specs.Inner.{set_apart, arranged, chosen_at, keys_of, length_made};
ghost use Rattle.des.specs.Stored.{pack_key, unpack_key, stored_schedule};

use crate::permutations;
use crate::round_keys::RoundKeys;
use crate::tables::{chosen_at, rotated_by};

// ---- the key

// Those bits of x that the mask m names, n places up, and those that l names where they are.
#[tactic(auto, unfolding(crate::specs::Inner::set_apart))]
fn set_apart(x: u64, n: u32, m: u64, l: u64) -> u64
    requires { n < 64 }
    ensures { result ≡ set_apart n m l x }
{
    ((x & m) << n) ^ (x & l)
}

// The 56 bits of a key in the top seven bits of eight octets, the parity bits clear, as one number:
// they are set apart in groups of 28, of 14 and of 7.
pub(crate) fn key_number(key: [u8; 7]) -> u64
    ensures { result ≡ from_be (expand_key key) }
{
    let x = octets::u64_from_be([0, key[0], key[1], key[2], key[3], key[4], key[5], key[6]]);
    let a = set_apart(x, 4, 0x00ff_ffff_f000_0000, 0x0000_0000_0fff_ffff);
    let b = set_apart(a, 2, 0x0fff_c000_0fff_c000, 0x0000_3fff_0000_3fff);
    set_apart(b, 1, 0x3f80_3f80_3f80_3f80, 0x007f_007f_007f_007f) << 1
}

// ---- the permuted choices

// The rows of IP in the order of PC-1.
#[tactic(auto, unfolding(crate::specs::Inner::arranged))]
fn arrange(y: u64) -> u64
    ensures { result ≡ arranged y }
{
    ((y & 0xff00_0000) << 24)
        ^ ((y >> 16) & 0xff00_0000_0000)
        ^ ((y & 0xff_0000) << 16)
        ^ ((y >> 24) & 0xf000_0000)
        ^ ((y & 0xff) << 20)
        ^ ((y >> 28) & 0xf_f000)
        ^ ((y >> 4) & 0xff0)
        ^ ((y >> 48) & 0xf)
}

// PC-1.
#[tactic(auto, using(crate::proofs::Choices::rows))]
fn first_choice(key: u64) -> u64
    ensures { result ≡ permute 64 pc1 key }
{
    arrange(permutations::initial_permutation(key))
}

// PC-2 where C and D are both the 28 low bits of x, as a stored round key has it.
#[tactic(auto, using(crate::proofs::Choices::choose_both_lem))]
fn choose_both(x: u64) -> u64
    ensures { result ≡ pack_key (chosen_at 0 (x % 0x1000_0000)) }
{
    chosen_at(0, x >> 21) ^ chosen_at(1, x >> 14) ^ chosen_at(2, x >> 7) ^ chosen_at(3, x)
}

// PC-2 of the 28 low bits of c and of d, as a stored round key has it: the groups of S1 to S4 are
// from C, those of S5 to S8 from D.
#[tactic(auto, using(crate::proofs::Choices::by_halves_lem))]
fn second_choice(c: u64, d: u64) -> u64
    ensures { result
        ≡ pack_key (permute 56 pc2 (c % 0x1000_0000 * 0x1000_0000 + d % 0x1000_0000)) }
{
    (choose_both(c) & 0x3f3f_0000_3f3f_0000) ^ (choose_both(d) & 0x3f3f_0000_3f3f)
}

// ---- the round keys

// The C and D that PC-1 gives for a key, of 28 bits each: each round key is made of them in its
// round.
#[derive(Drop)]
pub(crate) struct MadeKeys {
    c: u64,
    d: u64,
    ghost c_in_range: { c < 0x1000_0000 },
    ghost d_in_range: { d < 0x1000_0000 },
}

impl MadeKeys {
    // For a key of seven octets.
    #[tactic(auto, using(crate::proofs::Keys::choice_lt, crate::proofs::Keys::choice_keys))]
    pub(crate) fn of_key(key: [u8; 7]) -> MadeKeys
        ensures { keys_of result.c result.d ≡ schedule_of key }
    {
        let cd = first_choice(key_number(key));
        MadeKeys {
            c: cd / 0x1000_0000,
            d: cd % 0x1000_0000,
        }
    }

    // The round key of the round i, counted from 0, as it is stored: 28 bits rotated to the left by
    // n places stand 28 - n places from the end of those bits written twice.
    #[tactic(auto, using(crate::proofs::Keys::key_at_place))]
    fn stored_key(&self, i: usize) -> u64
        requires { i < 16 }
        ensures { result ≡ pack_key (get_or (keys_of self.now.c self.now.d) i 0) }
    {
        let s = 28 - rotated_by(i);
        let c = (self.c * 0x1000_0000 + self.c) >> s;
        let d = (self.d * 0x1000_0000 + self.d) >> s;
        second_choice(c, d)
    }
}

impl RoundKeys for MadeKeys {
    ghost keys = { λ s. keys_of s.c s.d };

    #[tactic(auto, using(crate::proofs::Stored::unpack_made))]
    fn key(&self, i: usize) -> u64 {
        self.stored_key(i)
    }

    ghost sixteen = { λ s. length_made s.c s.d };
}

// Writes the stored schedule of a key of seven octets.
pub(crate) fn fill_schedule(schedule: &mut [u64], key: [u8; 7])
    requires { length schedule.old ≡ 16 }
    ensures { schedule.new ≡ stored_schedule key }
{
    let keys = MadeKeys::of_key(key);
    for (i, place) in schedule.iter_mut().enumerate() {
        *place = keys.stored_key(i);
    }
}
