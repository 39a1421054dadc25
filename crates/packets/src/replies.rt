// What the authenticator sends: Challenge, Success and Failure; and what the peer reads in them.
ghost use Rattle.std.specs.Prelude.{◌≡◌};
ghost use Rattle.message.specs.Message.{text_of, verdict_values, values_of};
ghost use Rattle.refusals.specs.Refusal.{told};
ghost use Rattle.packets.specs.Frame.{written_over, written_length};
ghost use Rattle.packets.specs.Reply.{challenge_packet, success_packet, failure_packet};
ghost use Rattle.packets.specs.Reply.{bad_reply_buffer, bad_challenge, challenge_as};
ghost use Rattle.packets.specs.Reply.{read_challenge};
ghost use Rattle.packets.specs.Reply.{body_read, read_reply, reply_refusal, reply_values};

use crate::Challenge;
use crate::codes::{CHALLENGE_CODE, FAILURE_CODE, SUCCESS_CODE};
use crate::frames::{behind, head, is_bad_frame, is_bad_id, length, octet};
use crate::sizes::{CHALLENGE_LENGTH, CHALLENGE_OFFSET, CHALLENGE_SIZE, HEAD_SIZE, LONGEST_REPLY};
use message::Verdict;
use refusals::Refusal;

// Whether a reply buffer cannot hold the longest reply, a Failure.
pub fn is_bad_reply_buffer(reply: &[u8]) -> bool
    ensures { result ≡ bad_reply_buffer reply.now }
{
    reply.len() < LONGEST_REPLY
}

// ---- writers: each answers how many octets of out it wrote, 0 where there is too little room: that
// is the true count then (`written_length`), so none of the three can fail.

pub fn write_challenge(id: u8, challenge: [u8; CHALLENGE_SIZE], out: &mut [u8]) -> usize
    ensures { (result ≡ written_length (challenge_packet id challenge) out.old)
        × (out.new ≡ written_over (challenge_packet id challenge) out.old) }
{
    if out.len() < CHALLENGE_LENGTH {
        return 0;
    }
    octets::copy_at(out, 0, &head(CHALLENGE_CODE, id, CHALLENGE_LENGTH as u16));
    octets::copy_at(out, HEAD_SIZE, &[CHALLENGE_SIZE as u8]);
    octets::copy_at(out, CHALLENGE_OFFSET, &challenge);
    CHALLENGE_LENGTH
}

pub fn write_success(id: u8, out: &mut [u8]) -> usize
    ensures { (result ≡ written_length (success_packet id) out.old)
        × (out.new ≡ written_over (success_packet id) out.old) }
{
    if out.len() < HEAD_SIZE {
        return 0;
    }
    octets::copy_at(out, 0, &head(SUCCESS_CODE, id, HEAD_SIZE as u16));
    HEAD_SIZE
}

// The message is `E=691 R=1 V=2` with the numbers set.
pub fn write_failure(id: u8, e: u16, r: u8, v: u8, out: &mut [u8]) -> usize
    ensures { (result ≡ written_length (failure_packet id (text_of e r v)) out.old)
        × (out.new ≡ written_over (failure_packet id (text_of e r v)) out.old) }
{
    if out.len() < LONGEST_REPLY {
        return 0;
    }
    octets::copy_at(out, 0, &head(FAILURE_CODE, id, LONGEST_REPLY as u16));
    octets::copy_at(out, HEAD_SIZE, &message::text(e, r, v));
    LONGEST_REPLY
}

// ---- readers

// The packet is of another kind, cut short, or of a size other than 8.
fn is_bad_challenge(packet: &[u8]) -> bool
    ensures { result ≡ bad_challenge packet.now }
{
    let code = octet(packet, 0);
    let n = length(packet);
    let size = octet(packet, HEAD_SIZE);
    code != CHALLENGE_CODE || (n < CHALLENGE_LENGTH || size != CHALLENGE_SIZE as u8)
}

// A Challenge. Refusal 3: the frame; 11: another kind, cut short, or of a size other than 8.
#[tactic(auto, unfolding(crate::specs::Reply::read_challenge))]
pub fn read_challenge(packet: &[u8]) -> Result<Challenge, Refusal>
    ensures { challenge_as result ≡ read_challenge packet.now }
{
    if is_bad_frame(packet) {
        return Err(Refusal::Frame);
    }
    if is_bad_challenge(packet) {
        return Err(Refusal::Kind);
    }
    Ok(Challenge {
        id: octet(packet, 1),
        challenge: octets::array_at(packet, CHALLENGE_OFFSET),
    })
}

// What a reply says, by its code: refusal 11 for another kind, or by the message.
fn read_body(packet: &[u8]) -> Result<Verdict, Refusal>
    ensures { result ≡ body_read packet.now }
{
    match octet(packet, 0) {
        SUCCESS_CODE => Ok(Verdict::Success),
        FAILURE_CODE => {
            let text = octets::part_of(packet, HEAD_SIZE, behind(packet, HEAD_SIZE));
            Ok(Verdict::Failure(message::read(text)?))
        }
        _ => Err(Refusal::Kind),
    }
}

// A reply to the last packet, which had the identifier last. Refusal 3: the frame; 5: another
// identifier; 11: another kind, or by the message.
pub fn read_reply(last: u8, packet: &[u8]) -> Result<Verdict, Refusal>
    ensures as_defined { result ≡ read_reply last packet.now }
    ensures number { told result ≡ reply_refusal last packet.now }
    ensures values { values_of verdict_values result ≡ reply_values last packet.now }
{
    if is_bad_frame(packet) {
        return Err(Refusal::Frame);
    }
    if is_bad_id(last, packet) {
        return Err(Refusal::Identifier);
    }
    read_body(packet)
}
