// The first part of a step: whether a packet repeats the one last answered, and whether the
// conversation takes it or why it is refused.
ghost use Rattle.std.specs.Prelude.{◌≡◌};
ghost use Rattle.refusals.specs.Refusal.{told};
ghost use Rattle.authenticator.specs.Conversation.{change_code_of, awaited_code};
ghost use Rattle.authenticator.specs.Conversation.{awaits_response};
ghost use Rattle.authenticator.specs.Admit.{is_repeat, bad_code, change_refusal_of};
ghost use Rattle.authenticator.specs.Admit.{body_refusal, awaited_refusal, refusal_for};

use crate::{Conversation, LastAnswer, Phase};
use refusals::Refusal;
use verify::ChangeVersion;

// The code of a version's change.
fn change_code(change: ChangeVersion) -> u8
    ensures { result ≡ change_code_of change }
{
    match change {
        ChangeVersion::One => packets::CHANGE_ONE_CODE,
        ChangeVersion::Two => packets::CHANGE_CODE,
    }
}

// The code of the packet that a phase awaits; 0 is none. (A number and not an `Option`: C keeps the
// phase by this octet, layouts `encode_state`.)
pub fn awaited_code(change: ChangeVersion, phase: Phase) -> u8
    ensures { result ≡ awaited_code change phase }
{
    match phase {
        Phase::Response => packets::RESPONSE_CODE,
        Phase::Change => change_code(change),
        Phase::Ended => 0,
    }
}

// A packet with the code and the identifier last answered, whatever else is in it.
pub(crate) fn is_repeat(last: LastAnswer, packet: &[u8]) -> bool
    ensures { result ≡ is_repeat last packet.now }
{
    let code = packets::octet(packet, 0);
    let id = packets::octet(packet, 1);
    last.present & ((code == last.code) & (id == last.id))
}

pub(crate) fn awaits_response(phase: Phase) -> bool
    ensures { result ≡ awaits_response phase }
{
    match phase {
        Phase::Response => true,
        Phase::Change | Phase::Ended => false,
    }
}

fn is_bad_code(change: ChangeVersion, phase: Phase, packet: &[u8]) -> bool
    ensures { result ≡ bad_code change phase packet.now }
{
    packets::octet(packet, 0) != awaited_code(change, phase)
}

fn admit_change(change: ChangeVersion, packet: &[u8]) -> Result<(), Refusal>
    ensures { told result ≡ change_refusal_of change packet.now }
{
    match change {
        ChangeVersion::One => packets::admit_change_one(packet),
        ChangeVersion::Two => packets::admit_change(packet),
    }
}

fn admit_body(change: ChangeVersion, phase: Phase, packet: &[u8]) -> Result<(), Refusal>
    ensures { told result ≡ body_refusal change phase packet.now }
{
    match phase {
        Phase::Response => packets::admit_response(packet),
        Phase::Change => admit_change(change, packet),
        Phase::Ended => Ok(()),
    }
}

impl Conversation {
    // A packet that is awaited: the refusals 1, then 4 to 7.
    fn admit_awaited(self, packet: &[u8]) -> Result<(), Refusal>
        ensures { told result ≡ awaited_refusal self packet.now }
    {
        let change = self.terms.change;
        let phase = self.phase;
        if let Phase::Ended = phase {
            return Err(Refusal::Ended);
        }
        if is_bad_code(change, phase, packet) {
            return Err(Refusal::Code);
        }
        if packets::is_bad_id(self.id, packet) {
            return Err(Refusal::Identifier);
        }
        admit_body(change, phase, packet)
    }

    // The refusals 2 and 3, then none for a repeat, then 1, then 4 to 7.
    #[tactic(auto, unfolding(crate::specs::Admit::refusal_for))]
    pub(crate) fn admit(self, repeated: bool, packet: &[u8], reply: &[u8]) -> Result<(), Refusal>
        ensures { told result ≡ refusal_for repeated self packet.now reply.now }
    {
        if packets::is_bad_reply_buffer(reply) {
            return Err(Refusal::ReplyBuffer);
        }
        if packets::is_bad_frame(packet) {
            return Err(Refusal::Frame);
        }
        if repeated {
            return Ok(());
        }
        self.admit_awaited(packet)
    }
}
