// The layout of what a conversation answered last.
ghost use Rattle.std.specs.Prelude.{◌≡◌, ◌≤◌};
ghost use Rattle.octets.specs.Parts.{over_at};
ghost use Rattle.layouts.specs.LastAnswers.{reply_number, reply_from, encode_last, decode_last};
ghost use Rattle.layouts.specs.Inner.{room_size};

use crate::records::is_flag;
use crate::room::{Room, put_byte, put_flag, put_octets};
use authenticator::{LastAnswer, Reply, reason_of};

pub(crate) const LAST_SIZE: usize = 6;

const SUCCESS_REPLY: u8 = 0;

// A Failure with R=0.
const FINAL_FAILURE: u8 = 1;

// A Failure with R=1.
const RETRY_FAILURE: u8 = 2;

const ANSWERED_AT: usize = 0;

const ANSWERED_CODE_AT: usize = 1;

const ANSWERED_IDENTIFIER_AT: usize = 2;

const REPLY_AT: usize = 3;

const REPLY_REASON_AT: usize = 4;

fn reply_number(reply: Reply) -> u8
    ensures { result ≡ reply_number reply }
{
    match reply {
        Reply::Success => SUCCESS_REPLY,
        Reply::Failure(_, retry) => { if retry { RETRY_FAILURE } else { FINAL_FAILURE } }
    }
}

fn reply_from(n: u8, reason: u16) -> Reply
    ensures { result ≡ reply_from n reason }
{
    if n == SUCCESS_REPLY {
        return Reply::Success;
    }
    Reply::Failure(reason, n == RETRY_FAILURE)
}

pub(crate) fn encode_last(mut room: Room, at: usize, last: LastAnswer) -> Room
    requires { at ≤ room_size }
    ensures { result.bytes ≡ over_at at (encode_last last) room.bytes }
{
    let reply = last.reply;
    room = put_flag(room, at, last.present);
    room = put_byte(room, at + ANSWERED_CODE_AT, last.code);
    room = put_byte(room, at + ANSWERED_IDENTIFIER_AT, last.id);
    room = put_byte(room, at + REPLY_AT, reply_number(reply));
    put_octets(
        room,
        at + REPLY_REASON_AT,
        octets::u16_to_be(reason_of(reply)),
    )
}

pub(crate) fn decode_last(bytes: &[u8]) -> LastAnswer
    ensures { result ≡ decode_last bytes.now }
{
    let present = is_flag(packets::octet(bytes, ANSWERED_AT));
    let code = packets::octet(bytes, ANSWERED_CODE_AT);
    let id = packets::octet(bytes, ANSWERED_IDENTIFIER_AT);
    let reason = octets::u16_from_be(
        packets::octet(bytes, REPLY_REASON_AT),
        packets::octet(bytes, 5),
    );
    let reply = reply_from(packets::octet(bytes, REPLY_AT), reason);
    LastAnswer {
        present,
        code,
        id,
        reply,
    }
}
