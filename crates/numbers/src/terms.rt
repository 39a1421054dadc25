// The terms of an opening as C passes them.
ghost use Rattle.std.specs.Prelude.{◌≡◌};
ghost use Rattle.numbers.specs.Terms.{is_terms, retries_for, lm_for, change_for};
ghost use Rattle.numbers.specs.Terms.{retries_term, lm_term, change_term, limit_term};

use verify::ChangeVersion;

#[tactic(auto, unfolding(crate::specs::Terms::is_terms))]
pub fn is_terms(terms: u32) -> bool
    ensures { result ≡ is_terms terms }
{
    (terms / 65536 % 256 == 1) & ((terms / 256 % 4 < 3) & (terms / 1024 % 64 < 3))
}

fn retries_for(n: u8) -> Option<u8>
    ensures { result ≡ retries_for n }
{
    n.checked_sub(1)
}

fn lm_for(n: u8) -> Option<bool>
    ensures { result ≡ lm_for n }
{
    match n {
        0 => None,
        1 => Some(true),
        _ => Some(false),
    }
}

fn change_for(n: u8) -> Option<ChangeVersion>
    ensures { result ≡ change_for n }
{
    match n {
        0 => None,
        1 => Some(ChangeVersion::One),
        _ => Some(ChangeVersion::Two),
    }
}

pub fn retries_in(terms: u32) -> Option<u8>
    ensures { result ≡ retries_for (retries_term terms) }
{
    retries_for((terms % 256) as u8)
}

pub fn lm_in(terms: u32) -> Option<bool>
    ensures { result ≡ lm_for (lm_term terms) }
{
    lm_for((terms / 256 % 4) as u8)
}

pub fn change_in(terms: u32) -> Option<ChangeVersion>
    ensures { result ≡ change_for (change_term terms) }
{
    change_for((terms / 1024 % 64) as u8)
}

// How many invalid Responses in a row lock an account; 0 where the terms say nothing of it.
pub fn limit_in(terms: u32) -> u8
    ensures { result ≡ limit_term terms }
{
    (terms / 16777216) as u8
}
