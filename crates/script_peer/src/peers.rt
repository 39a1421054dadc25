// The commands of the peer's packets. Each writes its result.
use super::failures;
use message::Verdict;
use peer::{PacketWritten, Peer, Sent, Turn};
use refusals::Refusal;
use std::io;
use std::io::Write;

// A peer that sent the packet with this identifier and challenge, and has read nothing since.
fn peer_of(id: u8, challenge: [u8; 8]) -> Peer {
    Peer {
        sent: Sent {
            present: true,
            id,
            challenge,
        },
        turn: Turn { id, challenge },
    }
}

// The peer of the words ID CHALLENGE, after the command.
fn peer_in(line: &[u8]) -> Peer {
    peer_of(script::octet(line, 1), script::octets(line, 2))
}

// ---- what the peer reads

// ID CHALLENGE of the peer's turn
fn put_turn(output: &mut impl Write, peer: Peer) -> io::Result<()> {
    let turn = peer.turn;
    write!(output, " = {} {}", turn.id, script::Hex(&turn.challenge))
}

// challenge PACKET
pub(crate) fn challenge(output: &mut impl Write, line: &[u8]) -> io::Result<()> {
    let mut room = [0u8; 2048];
    match Peer::read_challenge(script::octets_in(line, 1, &mut room)) {
        Ok(peer) => put_turn(output, peer),
        Err(refusal) => write!(output, " = refused {refusal}"),
    }
}

fn put_verdict(output: &mut impl Write, verdict: Verdict) -> io::Result<()> {
    match verdict {
        Verdict::Success => write!(output, " = success"),
        Verdict::Failure(failed) => {
            write!(output, " = failure ")?;
            failures::put_failed(output, failed)
        }
    }
}

// reply ID PACKET
pub(crate) fn reply(output: &mut impl Write, line: &[u8]) -> io::Result<()> {
    let mut room = [0u8; 2048];
    let packet = script::octets_in(line, 2, &mut room);
    match peer_of(script::octet(line, 1), [0; 8]).read_reply(packet) {
        Ok(read) => put_verdict(output, read.verdict),
        Err(refusal) => write!(output, " = refused {refusal}"),
    }
}

// turn ID CHALLENGE PACKET: the turn after a packet that was sent and its reply. A reply that is
// refused leaves it as it was.
pub(crate) fn turn(output: &mut impl Write, line: &[u8]) -> io::Result<()> {
    let mut room = [0u8; 2048];
    let packet = script::octets_in(line, 3, &mut room);
    let sent = peer_in(line);
    match sent.read_reply(packet) {
        Ok(read) => put_turn(output, read.peer),
        Err(_) => put_turn(output, sent),
    }
}

// ---- what the peer writes

fn put_packet(
    output: &mut impl Write,
    wrote: Result<PacketWritten, Refusal>,
    packet: &[u8],
) -> io::Result<()> {
    script::put_written(output, wrote.map(|written| written.length), packet)
}

// writeresponse ID CHALLENGE PASSWORD NAME BUFFER
pub(crate) fn response(output: &mut impl Write, line: &[u8]) -> io::Result<()> {
    let mut password_room = [0u8; 1024];
    let password = script::octets_in(line, 3, &mut password_room);
    let mut name_room = [0u8; 1024];
    let name = script::octets_in(line, 4, &mut name_room);
    let mut room = [0u8; 2048];
    let packet = script::octets_in(line, 5, &mut room);
    let wrote = peer_in(line).write_response(password, name, packet);
    put_packet(output, wrote, packet)
}

// writechange ID CHALLENGE OLD NEW FILLER BUFFER: version 2's
pub(crate) fn change(output: &mut impl Write, line: &[u8]) -> io::Result<()> {
    let mut old_room = [0u8; 1024];
    let old = script::octets_in(line, 3, &mut old_room);
    let mut new_room = [0u8; 1024];
    let new = script::octets_in(line, 4, &mut new_room);
    let mut filler_room = [0u8; 1024];
    let filler = script::octets_in(line, 5, &mut filler_room);
    let mut room = [0u8; 2048];
    let packet = script::octets_in(line, 6, &mut room);
    let wrote = peer_in(line).write_change(old, new, filler, packet);
    put_packet(output, wrote, packet)
}

// writechange1 ID CHALLENGE OLD NEW BUFFER
pub(crate) fn change_one(output: &mut impl Write, line: &[u8]) -> io::Result<()> {
    let mut old_room = [0u8; 1024];
    let old = script::octets_in(line, 3, &mut old_room);
    let mut new_room = [0u8; 1024];
    let new = script::octets_in(line, 4, &mut new_room);
    let mut room = [0u8; 2048];
    let packet = script::octets_in(line, 5, &mut room);
    let wrote = peer_in(line).write_change_one(old, new, packet);
    put_packet(output, wrote, packet)
}
