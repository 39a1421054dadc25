// RC4: a key of 1 to 256 octets, and the data in place. No RFC defines RC4; it is checked against
// the keystreams of RFC 6229.
#![tactic(auto)]

ghost use Rattle.std.specs.Prelude.{◌≡◌, ◌<◌, length, if◌then◌else◌, nat_eq, slice_index};
ghost use Rattle.rc4.specs.Rc4.{swapped, upto, started, later_state, ciphered, key_fits, keyed};
ghost use Rattle.rc4.specs.Rc4.{key_answer, crypted};

use refusals::Refusal;

// The permutation and its two indices.
#[derive(Clone, Copy)]
pub struct State {
    pub s: [u8; 256],
    pub i: u8,
    pub j: u8,
}

// ---- the look-ahead
//
// Each turn of RC4 exchanges two entries, and the next turn begins with a read that may want one of
// them. Read after the exchange, it waits for the stores. So both loops read the next entry before
// the exchange (`ahead`), and then choose between it and what the exchange put there.

// Exchanges the entries at i and j, where the one at i is a. Answers the one that was at j. (`swap`
// would read the entry at i again.)
#[tactic(auto, unfolding(crate::specs::Rc4::swapped))]
fn put(s: &mut [u8; 256], i: u8, j: u8, a: u8) -> u8
    requires { a ≡ slice_index s.old i }
    ensures { (s.new ≡ swapped s.old i j)
        × (result ≡ slice_index s.old j) }
{
    let b = s[j as usize];
    s[i as usize] = b;
    s[j as usize] = a;
    b
}

// The entry at k, which is not i, after the exchange put a at j; before it, `ahead` was at k.
fn seen(k: u8, j: u8, a: u8, ahead: u8) -> u8
    ensures { result ≡ (if nat_eq k j then a else ahead) }
{
    if k == j { a } else { ahead }
}

// ---- the key schedule

// Fills a permutation with the identity.
fn identify(s: &mut [u8; 256])
    ensures { s.new ≡ upto 256 }
{
    for i in 0..256 {
        s[i] = i as u8;
    }
}

// Makes the permutation of a key, in place: one that was handed on as a value would stand on the
// stack once more for each function on its way.
fn schedule(s: &mut [u8; 256], key: &[u8])
    requires { 0 < length key.now }
    ensures { s.new ≡ (started key.now).s }
{
    identify(s);
    let mut j: u8 = 0;
    let mut a: u8 = 0;
    for n in 0..256 {
        let i = n as u8;
        j = j.wrapping_add(a).wrapping_add(key[n % key.len()]);
        let k = i.wrapping_add(1);
        let ahead = s[k as usize];
        put(s, i, j, a);
        a = seen(k, j, a, ahead);
    }
}

fn key_fits(key: &[u8]) -> bool
    ensures { result ≡ key_fits key.now }
{
    (1..=256).contains(&key.len())
}

impl State {
    // The state of a key before the first octet of its keystream.
    #[tactic(auto, unfolding(crate::specs::Rc4::started))]
    fn of_key(key: &[u8]) -> State
        requires { 0 < length key.now }
        ensures { result ≡ started key.now }
    {
        let mut state = State {
            s: [0; 256],
            i: 0,
            j: 0,
        };
        schedule(&mut state.s, key);
        state
    }

    // The same, or a refusal where the key has not 1 to 256 octets.
    #[tactic(auto, unfolding(crate::specs::Rc4::keyed))]
    pub fn new(key: &[u8]) -> Result<State, Refusal>
        ensures { result ≡ keyed key.now }
    {
        if !key_fits(key) {
            return Err(Refusal::Input);
        }
        Ok(State::of_key(key))
    }

    // Puts the data under the keystream, in place, and goes on to the state after it, by which the
    // next data are done.
    pub fn apply(&mut self, data: &mut [u8])
        ensures { (self.new ≡ later_state (length «data».old) self.old)
            × («data».new ≡ ciphered self.old «data».old) }
    {
        // stored at each octet, the indices would be slow: they are locals
        let mut i = self.i;
        let mut j = self.j;
        let mut a = self.s[i.wrapping_add(1) as usize];
        for octet in data.iter_mut() {
            i = i.wrapping_add(1);
            j = j.wrapping_add(a);
            let k = i.wrapping_add(1);
            let ahead = self.s[k as usize];
            let b = put(&mut self.s, i, j, a);
            *octet ^= self.s[a.wrapping_add(b) as usize];
            a = seen(k, j, a, ahead);
        }
        self.i = i;
        self.j = j;
    }
}

// The data under a key's keystream from its start, in place; unchanged where the key is refused.
pub fn rc4(key: &[u8], data: &mut [u8]) -> Result<(), Refusal>
    ensures { (result ≡ key_answer key.now)
        × («data».new ≡ crypted key.now «data».old) }
{
    if !key_fits(key) {
        return Err(Refusal::Input);
    }
    let mut state = State::of_key(key);
    state.apply(data);
    Ok(())
}
