// The Change Password packet, version 1, of 72 octets.
ghost use Rattle.std.specs.Prelude.{◌≡◌, ◌≤◌, length};
ghost use Rattle.refusals.specs.Refusal.{told};
ghost use Rattle.packets.specs.Frame.{written_over, written_as};
ghost use Rattle.packets.specs.Sizes.{change_one_size};
ghost use Rattle.packets.specs.ChangeOne.{change_one_packet, change_one_refusal, read_change_one};
ghost use Rattle.packets.specs.ChangeOne.{change_one_written, change_one_out};

use crate::ChangeOne;
use crate::codes::CHANGE_ONE_CODE;
use crate::frames::{admit_body, head, number_at, put_pair};
use crate::sizes::{
    CHANGE_ONE_SIZE, LENGTH_OFFSET, LM_NEW_OFFSET, LM_OLD_OFFSET, NT_NEW_OFFSET, NT_OLD_OFFSET,
    ONE_FLAGS_OFFSET,
};
use refusals::Refusal;

// The bit 0 of the flags.
const MOST_FLAGS: u16 = 1;

// A packet whose frame is good and whose code is 5. Refusal 6: its size; 7: one of the bits 1 to 15
// of its flags is set.
#[tactic(auto, unfolding(crate::specs::ChangeOne::change_one_refusal))]
pub fn admit_change_one(packet: &[u8]) -> Result<(), Refusal>
    ensures { told result ≡ change_one_refusal packet.now }
{
    admit_body(packet, CHANGE_ONE_SIZE, ONE_FLAGS_OFFSET, MOST_FLAGS)
}

pub fn read_change_one(packet: &[u8]) -> ChangeOne
    ensures { result ≡ read_change_one packet.now }
{
    ChangeOne {
        lmold: octets::array_at(packet, LM_OLD_OFFSET),
        lmnew: octets::array_at(packet, LM_NEW_OFFSET),
        ntold: octets::array_at(packet, NT_OLD_OFFSET),
        ntnew: octets::array_at(packet, NT_NEW_OFFSET),
        length: number_at(packet, LENGTH_OFFSET),
        flags: number_at(packet, ONE_FLAGS_OFFSET),
    }
}

// Puts a change that is not refused at the front of out: how many octets it has.
fn put_change_one(id: u8, fields: ChangeOne, out: &mut [u8]) -> usize
    requires { change_one_size ≤ length out.old }
    ensures { (result ≡ length (change_one_packet id fields))
        × (out.new ≡ written_over (change_one_packet id fields) out.old) }
{
    let length = octets::u16_to_be(fields.length);
    let flags = octets::u16_to_be(fields.flags);
    octets::copy_at(out, 0, &head(CHANGE_ONE_CODE, id, CHANGE_ONE_SIZE as u16));
    put_pair(out, LM_OLD_OFFSET, &fields.lmold, &fields.lmnew);
    put_pair(out, NT_OLD_OFFSET, &fields.ntold, &fields.ntnew);
    put_pair(out, LENGTH_OFFSET, &length, &flags);
    CHANGE_ONE_SIZE
}

// Writes a change at the front of out: how many octets it has. Refusal 9: too little room.
pub fn write_change_one(id: u8, fields: ChangeOne, out: &mut [u8]) -> Result<usize, Refusal>
    ensures answer { written_as result ≡ change_one_written id fields out.old }
    ensures out { out.new ≡ change_one_out id fields out.old }
{
    if out.len() < CHANGE_ONE_SIZE {
        return Err(Refusal::Room);
    }
    Ok(put_change_one(id, fields, out))
}
