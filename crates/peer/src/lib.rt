// The peer: what it keeps from one packet to the next, and what it reads and writes.
#![tactic(auto)]

mod peers;
mod turns;
mod writes;

use message::Verdict;
use packets::CHALLENGE_SIZE;

// The identifier and the challenge of the peer's next packet.
#[derive(Clone, Copy)]
pub struct Turn {
    pub id: u8,
    pub challenge: [u8; CHALLENGE_SIZE],
}

// The last packet that the peer sent, if there is one: its identifier, and the challenge of the
// last Response. Reading leaves it alone, so that a reply may be read again. (A flag and not an
// `Option`: C keeps a peer in 21 bytes of which any are a peer, and those behind the flag are
// handed back as they came: layouts `is_encoded_peer`.)
#[derive(Clone, Copy)]
pub struct Sent {
    pub present: bool,
    pub id: u8,
    pub challenge: [u8; CHALLENGE_SIZE],
}

// A peer is a value: reading and writing take it and give back the next.
#[derive(Clone, Copy)]
pub struct Peer {
    pub sent: Sent,
    pub turn: Turn,
}

// A packet was written: how many octets it has, and the peer that has sent it.
#[derive(Clone, Copy)]
pub struct PacketWritten {
    pub length: usize,
    pub peer: Peer,
}

// A reply was read: what it says, and the peer with the turn that follows.
#[derive(Clone, Copy)]
pub struct ReplyRead {
    pub verdict: Verdict,
    pub peer: Peer,
}
