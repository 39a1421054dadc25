// The peer: what it reads, and its three packets. The caller keeps its encoding between the calls.
ghost use Rattle.peer_calls.specs.Calls.{ChallengeCall, ReplyCall, WriteCall};
ghost use Rattle.peer_calls.specs.Calls.{response_arguments, response_from};
ghost use Rattle.peer_calls.specs.Calls.{change_arguments, change_from, change_one_from};

// Reads a Challenge, and writes the peer that is to answer it. 3: the frame. 11: another kind, cut
// short, or of a size other than 8.
#[unsafe(no_mangle)]
pub extern "C" fn mschap_read_challenge(packet: &[u8], peer: &mut [u8]) -> u32
    ensures { ChallengeCall packet.now peer.old
        result peer.new }
{
    peer_calls::read_challenge(packet, peer)
}

// Reads the reply to the last packet: writes what it calls for and its reason, and the next turn
// into the peer. 3: the frame. 5: another identifier. 11: another kind, or by the message.
#[unsafe(no_mangle)]
pub extern "C" fn mschap_read_reply(
    peer: &mut [u8],
    packet: &[u8],
    call: &mut u32,
    reason: &mut u64,
) -> u32
    ensures { ReplyCall peer.old packet.now call.old
        reason.old result peer.new call.new reason.new }
{
    peer_calls::read_reply(peer, packet, call, reason)
}

// Writes the Response of the turn at the front of out; the peer has then sent it. 10: the name. 9:
// too little room.
#[unsafe(no_mangle)]
pub extern "C" fn mschap_write_response(
    peer: &mut [u8],
    password: &[u8],
    name: &[u8],
    out: &mut [u8],
) -> u32
    ensures { WriteCall (response_arguments peer.old password.now)
        (response_from peer.old password.now name.now
        out.old)
        peer.old out.old result peer.new out.new }
{
    peer_calls::write_response(peer, password, name, out)
}

// Writes the version 2 change of the turn at the front of out; the peer has then sent it. 12: the
// filler. 9: too little room.
#[unsafe(no_mangle)]
pub extern "C" fn mschap_write_change(
    peer: &mut [u8],
    old: &[u8],
    new: &[u8],
    filler: &[u8],
    out: &mut [u8],
) -> u32
    ensures { WriteCall
        (change_arguments peer.old old.now new.now)
        (change_from peer.old old.now new.now filler.now
        out.old)
        peer.old out.old result peer.new out.new }
{
    peer_calls::write_change(peer, old, new, filler, out)
}

// Writes the version 1 change of the turn at the front of out; the peer has then sent it. 9: too
// little room.
#[unsafe(no_mangle)]
pub extern "C" fn mschap_write_change_1(
    peer: &mut [u8],
    old: &[u8],
    new: &[u8],
    out: &mut [u8],
) -> u32
    ensures { WriteCall
        (change_arguments peer.old old.now new.now)
        (change_one_from peer.old old.now new.now out.old)
        peer.old out.old result peer.new out.new }
{
    peer_calls::write_change_one(peer, old, new, out)
}
