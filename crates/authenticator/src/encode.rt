// The third part of a step: the octets of a reply.
ghost use Rattle.std.specs.Prelude.{◌≡◌};
ghost use Rattle.packets.specs.Frame.{written_over, written_length};
ghost use Rattle.authenticator.specs.Judge.{reason_of};
ghost use Rattle.authenticator.specs.Encode.{version, retry_digit, reply_packet};

use crate::Reply;
use message::reasons;
use verify::{ChangeVersion, Terms};

// The number of a version: V of our Failures.
pub fn version(change: ChangeVersion) -> u8
    ensures { result ≡ version change }
{
    change as u8
}

// The reason that a reply gives; 0 is Success.
pub fn reason_of(reply: Reply) -> u16
    ensures { result ≡ reason_of reply }
{
    match reply {
        Reply::Success => reasons::NO_REASON,
        Reply::Failure(reason, _) => reason,
    }
}

fn retry_digit(retry: bool) -> u8
    ensures { result ≡ retry_digit retry }
{
    u8::from(retry)
}

// Writes a reply to the packet with an identifier, and answers how many octets it takes.
pub(crate) fn write_reply(terms: Terms, id: u8, reply: Reply, out: &mut [u8]) -> usize
    ensures { (result ≡ written_length (reply_packet terms id reply) out.old)
        × (out.new ≡ written_over (reply_packet terms id reply) out.old) }
{
    let v = version(terms.change);
    match reply {
        Reply::Success => packets::write_success(id, out),
        Reply::Failure(reason, retry) => {
            packets::write_failure(id, reason, retry_digit(retry), v, out)
        }
    }
}
