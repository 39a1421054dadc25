// Octets of an encoded text.
ghost use Rattle.std.specs.Prelude.{◌≡◌, ◌+◌, ◌≤◌, [], ◌++◌, length};

use std::marker::Model;

// At most N octets. Clauses see those that are there; the rest of the room is blank.
#[derive(Clone, Copy, Debug)]
pub struct Coded<const N: usize> {
    pub(crate) octets: [u8; N],
    pub(crate) size: usize,
}

impl<const N: usize> Model for Coded<N> {
    ghost use Rattle.std.specs.Prelude.{◌≡◌, ◌≤◌, ℕ, List, length, take};
    ghost use Rattle.std.proofs.Common.{sym};
    ghost use Rattle.octets.specs.Parts.{fixed};
    ghost use Rattle.unicode_text.specs.Inner.{size_back};

    ghost Value = { List ℕ };

    ghost view = { λ c. take c.size c.octets };

    ghost invariant = { λ c. (c.size ≤ N) × (c.octets ≡ fixed N (take c.size c.octets)) };

    ghost inverse = { λ l. record { octets = fixed N l; size = length l } };

    ghost inverse_ok = { λ c h i. record {
      octets = sym h.1 i;
      size = size_back N c.size c.octets h i;
    } };
}

impl<const N: usize> Coded<N> {
    pub(crate) fn new() -> Self
        ensures { result ≡ [] }
    {
        Coded {
            octets: [0; N],
            size: 0,
        }
    }

    // How many there are.
    pub fn len(&self) -> usize
        ensures value { result ≡ length self.now }
        ensures within { result ≤ N }
    {
        self.size
    }

    // Those.
    pub fn as_slice(&self) -> &[u8]
        ensures { result.now ≡ self.now }
    {
        &self.octets[..self.size]
    }

    // Puts a piece behind what is there.
    pub(crate) fn append(&mut self, piece: &[u8])
        requires { length self.old + length piece.now ≤ N }
        ensures { self.new ≡ self.old ++ piece.now }
    {
        let end = self.size + piece.len();
        let octets = &mut self.octets[..];
        octets[self.size..end].copy_from_slice(piece);
        self.size = end;
    }
}
