// The sixteen round keys of a block, wherever they come from: made in their rounds
// (schedule::MadeKeys), read from what is kept (KeptKeys), or either in the opposite order.
ghost use Rattle.std.specs.Prelude.{◌≡◌, List, ℕ, ◌<◌, get_or, length, reverse};
ghost use Rattle.des.specs.Stored.{unpack_key};
ghost use Rattle.des.specs.Inner.{kept_keys, length_kept, length_opposite};

pub(crate) trait RoundKeys {
    // The round keys of 48 bits, in their order.
    ghost keys: { Self → List ℕ };

    // The round key of the round i, counted from 0, as it is stored. What other bits it has beside
    // those 48 has no effect.
    fn key(&self, i: usize) -> u64
        requires { i < 16 }
        ensures { unpack_key result ≡ get_or (keys self.now) i 0 };

    // There are sixteen.
    ghost sixteen: { (s : Self) → length (keys s) ≡ 16 };
}

// A stored schedule, which is lent in octets, so that none is copied.
#[derive(Drop)]
pub(crate) struct KeptKeys<'a> {
    pub(crate) octets: &'a [u8],
    ghost whole: { length octets.now ≡ 128 },
}

impl<'a> RoundKeys for KeptKeys<'a> {
    ghost keys = { λ s. kept_keys s.octets.now };

    // The compiler makes one load of it.
    fn key(&self, i: usize) -> u64 {
        let octets = self.octets[8 * i..].first_chunk::<8>().unwrap();
        u64::from_le_bytes(*octets)
    }

    ghost sixteen = { λ s. length_kept s.octets.now };
}

// Round keys in the opposite order, as decryption takes them.
#[derive(Drop)]
pub(crate) struct Opposite<K> {
    pub(crate) keys: K,
}

impl<K: RoundKeys> RoundKeys for Opposite<K> {
    ghost keys = { λ s. reverse (K.keys s.keys) };

    fn key(&self, i: usize) -> u64 {
        self.keys.key(15 - i)
    }

    ghost sixteen = { λ s. length_opposite (K.keys s.keys) (K.sixteen s.keys) };
}
