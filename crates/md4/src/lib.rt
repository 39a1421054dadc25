// MD4 (RFC 1320).
#![tactic(auto)]

mod rounds;

ghost use Rattle.std.specs.Prelude.{◌≡◌, ◌*◌, ◌/◌, ◌<◌, ◌≤◌, length};
ghost use Rattle.octets.specs.Parts.{part};
ghost use Rattle.octets.specs.Numbers.{from_le};
ghost use Rattle.blocks.specs.Blocks.{run_blocks};
ghost use Rattle.md4.specs.Md4.{increased, words_of, block, digest_of, md4_of, md4_answer};

use refusals::Refusal;
use rounds::{First, Second, Third, apply_round};
use std::array;

// The registers A, B, C and D.
#[derive(Clone, Copy)]
struct Registers {
    a: u32,
    b: u32,
    c: u32,
    d: u32,
}

#[tactic(auto, unfolding(crate::specs::Md4::increased))]
fn increase(r: Registers, s: Registers) -> Registers
    ensures { result ≡ increased s r }
{
    Registers {
        a: r.a.wrapping_add(s.a),
        b: r.b.wrapping_add(s.b),
        c: r.c.wrapping_add(s.c),
        d: r.d.wrapping_add(s.d),
    }
}

// The word k of a block.
fn word(b: &[u8; 64], k: usize) -> u32
    requires { k < 16 }
    ensures { result ≡ from_le (part (4 * k) 4 b.now) }
{
    let [w, x, y, z]: [u8; 4] = octets::array_at(b, 4 * k);
    octets::u32_from_le(w, x, y, z)
}

fn words(b: &[u8; 64]) -> [u32; 16]
    ensures { result ≡ words_of b.now }
{
    array::from_fn(|k| word(b, k))
}

// What a block does to the registers.
#[tactic(auto, unfolding(crate::specs::Md4::block))]
fn compress(s: Registers, b: &[u8; 64]) -> Registers
    ensures { result ≡ block b.now s }
{
    let x = words(b);
    let r = apply_round::<First>(s, x);
    increase(apply_round::<Third>(apply_round::<Second>(r, x), x), s)
}

// All whole blocks of b.
fn whole_blocks(s: Registers, b: &[u8]) -> Registers
    ensures { result ≡ run_blocks block (length b.now / 64) b.now s }
{
    let (whole, _rest) = b.as_chunks::<64>();
    whole.iter().fold(s, compress)
}

fn digest_of(r: Registers) -> [u8; 16]
    ensures { result ≡ digest_of r }
{
    let words = [
        octets::u32_to_le(r.a),
        octets::u32_to_le(r.b),
        octets::u32_to_le(r.c),
        octets::u32_to_le(r.d),
    ];
    octets::array_at(words.as_flattened(), 0)
}

fn digest(input: &[u8]) -> [u8; 16]
    requires { length input.now ≤ 4096 }
    ensures { result ≡ md4_of input.now }
{
    let s = Registers {
        a: 0x67452301,
        b: 0xefcdab89,
        c: 0x98badcfe,
        d: 0x10325476,
    };
    let r = whole_blocks(s, input);
    let bits = (input.len() * 8) as u64;
    let tail = blocks::tail_of(input, octets::u64_to_le(bits));
    digest_of(whole_blocks(r, &tail.octets[..tail.used]))
}

// The MD4 digest of input, or a refusal where it has more than 4,096 octets.
#[tactic(auto, unfolding(crate::specs::Md4::md4_answer))]
pub fn md4(input: &[u8]) -> Result<[u8; 16], Refusal>
    ensures { result ≡ md4_answer input.now }
{
    if 4096 < input.len() {
        return Err(Refusal::Input);
    }
    Ok(digest(input))
}
