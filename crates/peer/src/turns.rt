// The peer's turns: what was sent in one, and the next, from what a reply says.
ghost use Rattle.std.specs.Prelude.{◌≡◌, unwrap_or};
ghost use Rattle.challenges.specs.Challenges.{incremented};
ghost use Rattle.peer.specs.Turn.{sent_for, same_turn, retry_turn, change_turn, turn_for};
ghost use Rattle.peer.specs.Turn.{turn_after};

use crate::{Sent, Turn};
use message::{Call, Verdict};
use packets::CHALLENGE_SIZE;

// What was sent, once the packet of a turn is written.
pub(crate) fn sent_for(turn: Turn) -> Sent
    ensures { result ≡ sent_for turn }
{
    let challenge = turn.challenge;
    Sent {
        present: true,
        id: turn.id,
        challenge,
    }
}

// Nothing is to be sent: the turn of the last packet.
fn same_turn(sent: Sent) -> Turn
    ensures { result ≡ same_turn sent }
{
    let challenge = sent.challenge;
    Turn {
        id: sent.id,
        challenge,
    }
}

// C where given, else the 23 rule.
fn retry_challenge(
    last: [u8; CHALLENGE_SIZE],
    c: Option<[u8; CHALLENGE_SIZE]>,
) -> [u8; CHALLENGE_SIZE]
    ensures { result ≡ unwrap_or c (incremented last) }
{
    c.unwrap_or(challenges::incremented(last))
}

fn retry_turn(sent: Sent, c: Option<[u8; CHALLENGE_SIZE]>) -> Turn
    ensures { result ≡ retry_turn sent c }
{
    Turn {
        id: challenges::next_id(sent.id),
        challenge: retry_challenge(sent.challenge, c),
    }
}

// A change of either version uses the last Response's challenge, whatever C says.
fn change_turn(sent: Sent) -> Turn
    ensures { result ≡ change_turn sent }
{
    let challenge = sent.challenge;
    Turn {
        id: challenges::next_id(sent.id),
        challenge,
    }
}

fn turn_for(call: Call, sent: Sent, c: Option<[u8; CHALLENGE_SIZE]>) -> Turn
    ensures { result ≡ turn_for call sent c }
{
    match call {
        Call::Retry => retry_turn(sent, c),
        Call::ChangeTwo | Call::ChangeOne => change_turn(sent),
        Call::End => same_turn(sent),
    }
}

// The turn after a verdict on the last packet that was sent.
pub(crate) fn turn_after(verdict: Verdict, sent: Sent) -> Turn
    ensures { result ≡ turn_after verdict sent }
{
    match verdict {
        Verdict::Success => same_turn(sent),
        Verdict::Failure(failed) => turn_for(failed.call, sent, failed.c),
    }
}
