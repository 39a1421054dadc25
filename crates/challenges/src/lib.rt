// The challenges that follow one another in a conversation by the 23 rule, and the identifier of
// the packet that answers a Failure (RFC 2433, section 8 and B.1).
#![tactic(auto)]

ghost use Rattle.std.specs.Prelude.{◌≡◌};
ghost use mathlib.Core.List.{flatten};
ghost use Rattle.challenges.specs.Challenges.{next_id, incremented, challenges_from};

// The identifier after id; 0 after 255.
pub fn next_id(id: u8) -> u8
    ensures { result ≡ next_id id }
{
    id.wrapping_add(1)
}

// The challenge plus 23 in the first octet, with no carry into the others.
pub fn incremented(challenge: [u8; 8]) -> [u8; 8]
    ensures { result ≡ incremented challenge }
{
    let mut next = challenge;
    next[0] = challenge[0].wrapping_add(23);
    next
}

// The challenge and its seven successors, one behind the other: all that a conversation can have in
// force.
pub fn challenges_from(challenge: [u8; 8]) -> [u8; 64]
    ensures { result ≡ flatten (challenges_from 8 challenge) }
{
    let mut run = [challenge; 8];
    let mut next = challenge;
    for place in &mut run {
        *place = next;
        // by a name: a call's result is not laid in what a loop holds on to
        let after = incremented(next);
        next = after;
    }
    octets::array_at(run.as_flattened(), 0)
}
