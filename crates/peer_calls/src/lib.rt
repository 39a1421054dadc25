// The peer in a buffer of C's: what it reads, and its three packets. The caller keeps its encoding
// between the calls. What a call returns and leaves is said here; `mschap` exports the five under
// their names in C. Every public function is total.
#![tactic(auto)]

ghost use Rattle.std.specs.Prelude.{◌≡◌};
ghost use Rattle.peer_calls.specs.Calls.{ChallengeCall};
ghost use Rattle.peer_calls.specs.Calls.{ReplyCall, response_arguments, change_arguments};
ghost use Rattle.peer_calls.specs.Calls.{response_from, change_from, change_one_from};
ghost use Rattle.peer_calls.specs.Calls.{WriteCall};

use layouts::{
    BAD_ARGUMENT, PEER_SIZE, decode_password, decode_peer, is_encoded_password, is_encoded_peer,
    put_peer, refused,
};
use numbers::{call_in, failure_reason};
use peer::Peer;

// Reads a Challenge, and writes the peer that is to answer it. 3: the frame. 11: another kind, cut
// short, or of a size other than 8.
pub fn read_challenge(packet: &[u8], peer: &mut [u8]) -> u32
    ensures { ChallengeCall packet.now peer.old
        result peer.new }
{
    if peer.len() != PEER_SIZE {
        return BAD_ARGUMENT;
    }
    match Peer::read_challenge(packet) {
        Ok(first) => put_peer(first, peer),
        Err(refusal) => refused(refusal),
    }
}

// ---- a reply

// Reads the reply to the last packet: writes what it calls for and its reason, and the next turn
// into the peer. 3: the frame. 5: another identifier. 11: another kind, or by the message.
pub fn read_reply(peer: &mut [u8], packet: &[u8], call: &mut u32, reason: &mut u64) -> u32
    ensures { ReplyCall peer.old packet.now call.old
        reason.old result peer.new call.new reason.new }
{
    if !is_encoded_peer(peer) {
        return BAD_ARGUMENT;
    }
    match decode_peer(peer).read_reply(packet) {
        Ok(read) => {
            *call = call_in(read.verdict);
            *reason = failure_reason(read.verdict);
            put_peer(read.peer, peer)
        }
        Err(refusal) => refused(refusal),
    }
}

// ---- the packets

#[tactic(auto, unfolding(crate::specs::Calls::response_arguments))]
fn are_response_arguments(peer: &[u8], password: &[u8]) -> bool
    ensures { result ≡ response_arguments peer.now password.now }
{
    is_encoded_peer(peer) && is_encoded_password(password)
}

// Writes the Response of the turn at the front of out; the peer has then sent it. 10: the name. 9:
// too little room.
pub fn write_response(peer: &mut [u8], password: &[u8], name: &[u8], out: &mut [u8]) -> u32
    ensures { WriteCall (response_arguments peer.old password.now)
        (response_from peer.old password.now name.now
        out.old)
        peer.old out.old result peer.new out.new }
{
    if !are_response_arguments(peer, password) {
        return BAD_ARGUMENT;
    }
    let before = decode_peer(peer);
    match before.write_response(decode_password(password), name, out) {
        Ok(written) => put_peer(written.peer, peer),
        Err(refusal) => refused(refusal),
    }
}

#[tactic(auto, unfolding(crate::specs::Calls::change_arguments))]
fn are_change_arguments(peer: &[u8], old: &[u8], new: &[u8]) -> bool
    ensures { result ≡ change_arguments peer.now old.now
        new.now }
{
    is_encoded_peer(peer) && is_encoded_password(old) && is_encoded_password(new)
}

// Writes the version 2 change of the turn at the front of out; the peer has then sent it. 12: the
// filler. 9: too little room.
pub fn write_change(peer: &mut [u8], old: &[u8], new: &[u8], filler: &[u8], out: &mut [u8]) -> u32
    ensures { WriteCall
        (change_arguments peer.old old.now new.now)
        (change_from peer.old old.now new.now filler.now
        out.old)
        peer.old out.old result peer.new out.new }
{
    if !are_change_arguments(peer, old, new) {
        return BAD_ARGUMENT;
    }
    let before = decode_peer(peer);
    match before.write_change(decode_password(old), decode_password(new), filler, out) {
        Ok(written) => put_peer(written.peer, peer),
        Err(refusal) => refused(refusal),
    }
}

// Writes the version 1 change of the turn at the front of out; the peer has then sent it. 9: too
// little room.
pub fn write_change_one(peer: &mut [u8], old: &[u8], new: &[u8], out: &mut [u8]) -> u32
    ensures { WriteCall
        (change_arguments peer.old old.now new.now)
        (change_one_from peer.old old.now new.now out.old)
        peer.old out.old result peer.new out.new }
{
    if !are_change_arguments(peer, old, new) {
        return BAD_ARGUMENT;
    }
    let before = decode_peer(peer);
    match before.write_change_one(decode_password(old), decode_password(new), out) {
        Ok(written) => put_peer(written.peer, peer),
        Err(refusal) => refused(refusal),
    }
}
