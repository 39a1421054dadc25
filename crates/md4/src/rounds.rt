// The three rounds of MD4, which differ in a function, a constant and a table.
ghost use Rattle.std.specs.Prelude.{◌≡◌, ℕ, ◌<◌, List, true};
ghost use Rattle.std.proofs.Common.{refl};
ghost use Rattle.md4.specs.Md4.{aux_f, aux_g, aux_h, operation, operations, table1, table2, table3};
ghost use Rattle.md4.specs.Inner.{in_range};

use crate::Registers;

// F in three operations. Two of them wait for x, the register that is known last.
fn choose(x: u32, y: u32, z: u32) -> u32
    ensures { result ≡ aux_f x y z }
{
    ((y ^ z) & x) ^ z
}

// G in four operations. No bit is set in both terms, so that their sum is their union; the sum may
// be joined with those of the step.
fn majority(x: u32, y: u32, z: u32) -> u32
    ensures { result ≡ aux_g x y z }
{
    (y & z).wrapping_add(x & (y ^ z))
}

// H.
fn parity(x: u32, y: u32, z: u32) -> u32
    ensures { result ≡ aux_h x y z }
{
    x ^ y ^ z
}

// What tells a round from the others: its auxiliary function, the constant that it adds, and for
// each operation the number of its word and its shift.
pub(crate) trait Round {
    ghost aux: { ℕ → ℕ → ℕ → ℕ };

    ghost ADDED: { ℕ };

    ghost TABLE: { List (ℕ × ℕ) };

    const ADDED: u32;

    const TABLE: [(usize, u32); 16];

    fn auxiliary(x: u32, y: u32, z: u32) -> u32
        ensures { result ≡ aux x y z };

    // each word is one of the sixteen, and each shift moves a word by 1 to 31 bits
    ghost within: { in_range TABLE ≡ true };
}

pub(crate) struct First;

pub(crate) struct Second;

pub(crate) struct Third;

impl Round for First {
    ghost aux = { aux_f };

    ghost ADDED = { 0 };

    ghost TABLE = { table1 };

    const ADDED: u32 = 0;

    const TABLE: [(usize, u32); 16] = [
        (0, 3),
        (1, 7),
        (2, 11),
        (3, 19),
        (4, 3),
        (5, 7),
        (6, 11),
        (7, 19),
        (8, 3),
        (9, 7),
        (10, 11),
        (11, 19),
        (12, 3),
        (13, 7),
        (14, 11),
        (15, 19),
    ];

    fn auxiliary(x: u32, y: u32, z: u32) -> u32 {
        choose(x, y, z)
    }

    ghost within = { refl };
}

impl Round for Second {
    ghost aux = { aux_g };

    ghost ADDED = { 0x5a827999 };

    ghost TABLE = { table2 };

    const ADDED: u32 = 0x5a827999;

    const TABLE: [(usize, u32); 16] = [
        (0, 3),
        (4, 5),
        (8, 9),
        (12, 13),
        (1, 3),
        (5, 5),
        (9, 9),
        (13, 13),
        (2, 3),
        (6, 5),
        (10, 9),
        (14, 13),
        (3, 3),
        (7, 5),
        (11, 9),
        (15, 13),
    ];

    fn auxiliary(x: u32, y: u32, z: u32) -> u32 {
        majority(x, y, z)
    }

    ghost within = { refl };
}

impl Round for Third {
    ghost aux = { aux_h };

    ghost ADDED = { 0x6ed9eba1 };

    ghost TABLE = { table3 };

    const ADDED: u32 = 0x6ed9eba1;

    const TABLE: [(usize, u32); 16] = [
        (0, 3),
        (8, 9),
        (4, 11),
        (12, 15),
        (2, 3),
        (10, 9),
        (6, 11),
        (14, 15),
        (1, 3),
        (9, 9),
        (5, 11),
        (13, 15),
        (3, 3),
        (11, 9),
        (7, 11),
        (15, 15),
    ];

    fn auxiliary(x: u32, y: u32, z: u32) -> u32 {
        parity(x, y, z)
    }

    ghost within = { refl };
}

// One operation, and the registers one place on.
#[tactic(auto, unfolding(crate::specs::Md4::operation))]
fn operation<R: Round>(r: Registers, shift: u32, x: u32) -> Registers
    requires { (0 < shift) × (shift < 32) }
    ensures { result ≡ operation R.aux R.ADDED shift x r }
{
    let sum = r
        .a
        .wrapping_add(R::auxiliary(r.b, r.c, r.d))
        .wrapping_add(x)
        .wrapping_add(R::ADDED);
    Registers {
        a: r.d,
        b: sum.rotate_left(shift),
        c: r.b,
        d: r.c,
    }
}

// The sixteen operations of a round over the words x.
pub(crate) fn apply_round<R: Round>(s: Registers, x: [u32; 16]) -> Registers
    ensures { result ≡ operations R.aux R.ADDED x R.TABLE s }
{
    let mut r = s;
    for (k, shift) in R::TABLE {
        r = operation::<R>(r, shift, x[k]);
    }
    r
}
