// The layout of a peer.
ghost use Rattle.std.specs.Prelude.{◌≡◌};
ghost use Rattle.layouts.specs.Call.{Fills, sized};
ghost use Rattle.layouts.specs.Peers.{encode_turns, decode_turns};
ghost use Rattle.layouts.specs.Peers.{encode_peer, decode_peer, is_encoded_peer, peer_size};
ghost use Rattle.layouts.specs.Inner.{in_room};

use crate::records::is_flag;
use crate::room::{
    Room, TAG_SIZE, empty_room, is_value, put_byte, put_flag, put_octets, put_value,
};
use peer::{Peer, Sent, Turn};

const TURNS_SIZE: usize = 19;

pub const PEER_SIZE: usize = 21;

// P
const PEER_KIND: u8 = 80;

const SENT_AT: usize = 0;

const SENT_IDENTIFIER_AT: usize = 1;

const SENT_CHALLENGE_AT: usize = 2;

const NEXT_IDENTIFIER_AT: usize = 10;

const NEXT_CHALLENGE_AT: usize = 11;

fn encode_turns(peer: Peer) -> Room
    ensures { result.bytes ≡ in_room (encode_turns peer) }
{
    let sent = peer.sent;
    let turn = peer.turn;
    let answered = sent.challenge;
    let challenge = turn.challenge;
    let mut room = put_flag(empty_room(), SENT_AT, sent.present);
    room = put_byte(room, SENT_IDENTIFIER_AT, sent.id);
    room = put_octets(room, SENT_CHALLENGE_AT, answered);
    room = put_byte(room, NEXT_IDENTIFIER_AT, turn.id);
    put_octets(room, NEXT_CHALLENGE_AT, challenge)
}

fn decode_turns(bytes: &[u8]) -> Peer
    ensures { result ≡ decode_turns bytes.now }
{
    let present = is_flag(packets::octet(bytes, SENT_AT));
    let last = packets::octet(bytes, SENT_IDENTIFIER_AT);
    let answered = octets::array_at(bytes, SENT_CHALLENGE_AT);
    let next = packets::octet(bytes, NEXT_IDENTIFIER_AT);
    let challenge = octets::array_at(bytes, NEXT_CHALLENGE_AT);
    Peer {
        sent: Sent {
            present,
            id: last,
            challenge: answered,
        },
        turn: Turn {
            id: next,
            challenge,
        },
    }
}

pub fn decode_peer(bytes: &[u8]) -> Peer
    ensures { result ≡ decode_peer bytes.now }
{
    decode_turns(octets::part_of(bytes, TAG_SIZE, TURNS_SIZE))
}

// Whether bytes are a peer's.
pub fn is_encoded_peer(bytes: &[u8]) -> bool
    ensures { result ≡ is_encoded_peer bytes.now }
{
    let body = encode_turns(decode_peer(bytes));
    is_value(PEER_KIND, body, PEER_SIZE, bytes)
}

// Fills out with a peer.
pub fn put_peer(peer: Peer, out: &mut [u8]) -> u32
    ensures { Fills (sized peer_size out.old) 0 (encode_peer peer)
        out.old result out.new }
{
    let body = encode_turns(peer);
    put_value(PEER_KIND, body, PEER_SIZE, out)
}
