// The end of a padded message, for a hash over blocks of 64 octets. (The run over the blocks stands
// beside each hash: it is one `fold` over `as_chunks`, and its proof cites the laws here.)
#![tactic(auto)]

ghost use Rattle.std.specs.Prelude.{◌≡◌};
ghost use Rattle.blocks.specs.Blocks.{tail_length, tail_of};

// The octets that follow the last whole block of a message, padding included: the first `used` of
// them, one block or two. (A buffer with its length beside it, as there is no heap.)
#[derive(Clone, Copy)]
pub struct Tail {
    pub octets: [u8; 128],
    pub used: usize,
}

// 64 where the octet 128 and the length still fit after n % 64 octets, else 128.
#[tactic(auto, unfolding(crate::specs::Blocks::tail_length, crate::specs::Blocks::zeros))]
fn tail_length(n: usize) -> usize
    ensures { result ≡ tail_length n }
{
    if n % 64 < 56 { 64 } else { 128 }
}

// The tail of a message whose length is written as `length`.
#[tactic(auto, unfolding(crate::specs::Blocks::tail_length, crate::specs::Blocks::zeros))]
pub fn tail_of(message: &[u8], length: [u8; 8]) -> Tail
    ensures { result ≡ tail_of length message.now }
{
    let n = message.len();
    let rest = n % 64;
    let used = tail_length(n);
    let mut octets = [0u8; 128];
    octets::copy(&mut octets, &message[n - rest..]);
    octets[rest] = 128;
    octets::copy(&mut octets[used - 8..], &length);
    Tail { octets, used }
}
