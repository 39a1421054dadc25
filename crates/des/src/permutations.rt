// IP and its inverse, by exchanges of bits.
ghost use Rattle.std.specs.Prelude.{◌≡◌, ◌<◌};
ghost use Rattle.des.specs.Tables.{ip, fp};
ghost use Rattle.des.specs.Des.{permute};
ghost use Rattle.des.specs.Inner.{bits_swapped};

// Those bits of x that the mask m names change places with the bits n places above them.
#[tactic(auto, unfolding(crate::specs::Inner::bits_swapped))]
fn swap_bits(x: u64, n: u32, m: u64) -> u64
    requires { n < 64 }
    ensures { result ≡ bits_swapped n m x }
{
    let t = ((x >> n) ^ x) & m;
    x ^ t ^ (t << n)
}

// IP.
#[tactic(auto, using(crate::proofs::Swaps::ip_swaps_lem))]
pub(crate) fn initial_permutation(x: u64) -> u64
    ensures { result ≡ permute 64 ip x }
{
    let a = swap_bits(x, 3, 0x1111_1111_1111_1111);
    let b = swap_bits(a, 9, 0x0055_0055_0055_0055);
    let c = swap_bits(b, 6, 0x0303_0303_0303_0303);
    let d = swap_bits(c, 18, 0x0000_3333_0000_3333);
    swap_bits(d, 36, 0x0000_0000_0f0f_0f0f)
}

// The inverse of IP: the same exchanges in the opposite order. A loop over a table of the five,
// from either end, would be no plainer.
#[tactic(auto, using(crate::proofs::Swaps::fp_swaps_lem))]
pub(crate) fn final_permutation(x: u64) -> u64
    ensures { result ≡ permute 64 fp x }
{
    let a = swap_bits(x, 36, 0x0000_0000_0f0f_0f0f);
    let b = swap_bits(a, 18, 0x0000_3333_0000_3333);
    let c = swap_bits(b, 6, 0x0303_0303_0303_0303);
    let d = swap_bits(c, 9, 0x0055_0055_0055_0055);
    swap_bits(d, 3, 0x1111_1111_1111_1111)
}
