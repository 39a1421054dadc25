// The peer's methods: what it reads and writes, and what that makes of it. Where they refuse, there
// is no new peer, and the caller goes on with the one it has.
ghost use Rattle.std.specs.Prelude.{◌≡◌, [], cond, IfOk};
ghost use Rattle.message.specs.Message.{verdict_values, values_of};
ghost use Rattle.refusals.specs.Refusal.{told};
ghost use Rattle.packets.specs.Frame.{bad_frame};
ghost use Rattle.packets.specs.Reply.{challenge_as, read_challenge, reply_refusal, reply_values};
ghost use Rattle.peer.specs.Write.{write_response, write_change, write_change_one};
ghost use Rattle.peer.specs.Peer.{after_challenge, sent_by, reads_after, Writes, Reads};

use crate::turns::{sent_for, turn_after};
use crate::writes::{write_change, write_change_one, write_response};
use crate::{PacketWritten, Peer, ReplyRead, Sent, Turn};
use message::Verdict;
use packets::{CHALLENGE_SIZE, Challenge};
use refusals::Refusal;

fn after_challenge(read: Challenge) -> Peer
    ensures { result ≡ after_challenge (challenge_as (Ok read)) }
{
    let challenge = read.challenge;
    Peer {
        sent: Sent {
            present: false,
            id: 0,
            challenge: [0; CHALLENGE_SIZE],
        },
        turn: Turn {
            id: read.id,
            challenge,
        },
    }
}

// What a packet says as the reply to the last one that was sent; where none was, no packet has its
// identifier.
fn reads_after(sent: Sent, packet: &[u8]) -> Result<Verdict, Refusal>
    ensures as_defined { result ≡ reads_after sent packet.now }
    ensures number { told result
        ≡ cond sent.present (reply_refusal sent.id packet.now)
        (cond (bad_frame packet.now) 3 5) }
    ensures values { values_of verdict_values result
        ≡ cond sent.present (reply_values sent.id packet.now) [] }
{
    if sent.present {
        return packets::read_reply(sent.id, packet);
    }
    if packets::is_bad_frame(packet) {
        return Err(Refusal::Frame);
    }
    Err(Refusal::Identifier)
}

impl Peer {
    // Reads a Challenge: the peer that is to answer it. Refusal 3: the frame; 11: another kind, cut
    // short, or of a size other than 8.
    pub fn read_challenge(packet: &[u8]) -> Result<Peer, Refusal>
        ensures number { told result ≡ (read_challenge packet.now).refusal }
        ensures peer { IfOk result (λ q. q ≡ after_challenge (read_challenge packet.now)) }
    {
        let read = packets::read_challenge(packet)?;
        Ok(after_challenge(read))
    }

    // The peer once the packet of its turn was sent.
    fn sent_by(self) -> Peer
        ensures { result ≡ sent_by self }
    {
        Peer {
            sent: sent_for(self.turn),
            ..self
        }
    }

    // Writes the Response of the turn from a password at the front of out. Refusal 8: the password;
    // 10: the name; 9: too little room. What was written counts as sent.
    pub fn write_response(
        self,
        password: &[u8],
        name: &[u8],
        out: &mut [u8],
    ) -> Result<PacketWritten, Refusal>
        ensures { Writes self
            (write_response self.turn password.now name.now out.old)
            result out.new }
    {
        let length = write_response(self.turn, password, name, out)?;
        let peer = self.sent_by();
        Ok(PacketWritten { length, peer })
    }

    // Writes the version 2 change of the turn from the old and the new password at the front of
    // out. Refusal 8: either password; 12: the filler; 9: too little room. What was written counts
    // as sent.
    pub fn write_change(
        self,
        old: &[u8],
        new: &[u8],
        filler: &[u8],
        out: &mut [u8],
    ) -> Result<PacketWritten, Refusal>
        ensures { Writes self
            (write_change self.turn old.now new.now filler.now out.old)
            result out.new }
    {
        let length = write_change(self.turn, old, new, filler, out)?;
        let peer = self.sent_by();
        Ok(PacketWritten { length, peer })
    }

    // Writes the version 1 change of the turn from the old and the new password at the front of
    // out. Refusal 8: either password; 9: too little room. What was written counts as sent.
    pub fn write_change_one(
        self,
        old: &[u8],
        new: &[u8],
        out: &mut [u8],
    ) -> Result<PacketWritten, Refusal>
        ensures { Writes self
            (write_change_one self.turn old.now new.now out.old)
            result out.new }
    {
        let length = write_change_one(self.turn, old, new, out)?;
        let peer = self.sent_by();
        Ok(PacketWritten { length, peer })
    }

    // Reads the reply to the last packet, and makes the next turn from it. A packet is to be sent
    // where the verdict calls for a retry or a change. Refusal 3: the frame; 5: another identifier;
    // 11: another kind, or by the message.
    pub fn read_reply(self, packet: &[u8]) -> Result<ReplyRead, Refusal>
        ensures { Reads self packet.now result }
    {
        let verdict = reads_after(self.sent, packet)?;
        let turn = turn_after(verdict, self.sent);
        Ok(ReplyRead {
            verdict,
            peer: Peer { turn, ..self },
        })
    }
}
