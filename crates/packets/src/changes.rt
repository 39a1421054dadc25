// The Change Password packet, version 2, of 1,118 octets.
ghost use Rattle.std.specs.Prelude.{◌≡◌, ◌≤◌, length};
ghost use Rattle.refusals.specs.Refusal.{told};
ghost use Rattle.packets.specs.Frame.{written_over, written_as};
ghost use Rattle.packets.specs.Sizes.{change_size};
ghost use Rattle.packets.specs.Change.{change_packet, change_refusal, read_change};
ghost use Rattle.packets.specs.Change.{change_written, change_out};

use crate::Change;
use crate::codes::CHANGE_CODE;
use crate::frames::{admit_body, head, number_at, put_pair};
use crate::sizes::{
    CHANGE_SIZE, FLAGS_OFFSET, HEAD_SIZE, LM_ANSWER_OFFSET, LM_BLOCK_OFFSET, LM_VERIFIER_OFFSET,
    NT_ANSWER_OFFSET, VERIFIER_OFFSET,
};
use refusals::Refusal;

// The bits 0 and 1 of the flags.
const MOST_FLAGS: u16 = 3;

// A packet whose frame is good and whose code is 6. Refusal 6: its size; 7: one of the bits 2 to 15
// of its flags is set.
#[tactic(auto, unfolding(crate::specs::Change::change_refusal))]
pub fn admit_change(packet: &[u8]) -> Result<(), Refusal>
    ensures { told result ≡ change_refusal packet.now }
{
    admit_body(packet, CHANGE_SIZE, FLAGS_OFFSET, MOST_FLAGS)
}

pub fn read_change(packet: &[u8]) -> Change
    ensures { result ≡ read_change packet.now }
{
    Change {
        block: octets::array_at(packet, HEAD_SIZE),
        verifier: octets::array_at(packet, VERIFIER_OFFSET),
        lmblock: octets::array_at(packet, LM_BLOCK_OFFSET),
        lmverifier: octets::array_at(packet, LM_VERIFIER_OFFSET),
        lm: octets::array_at(packet, LM_ANSWER_OFFSET),
        nt: octets::array_at(packet, NT_ANSWER_OFFSET),
        flags: number_at(packet, FLAGS_OFFSET),
    }
}

// Puts a change that is not refused at the front of out: how many octets it has.
fn put_change(id: u8, fields: Change, out: &mut [u8]) -> usize
    requires { change_size ≤ length out.old }
    ensures { (result ≡ length (change_packet id fields))
        × (out.new ≡ written_over (change_packet id fields) out.old) }
{
    octets::copy_at(out, 0, &head(CHANGE_CODE, id, CHANGE_SIZE as u16));
    put_pair(out, HEAD_SIZE, &fields.block, &fields.verifier);
    put_pair(out, LM_BLOCK_OFFSET, &fields.lmblock, &fields.lmverifier);
    put_pair(out, LM_ANSWER_OFFSET, &fields.lm, &fields.nt);
    octets::copy_at(out, FLAGS_OFFSET, &octets::u16_to_be(fields.flags));
    CHANGE_SIZE
}

// Writes a change at the front of out: how many octets it has. Refusal 9: too little room.
pub fn write_change(id: u8, fields: Change, out: &mut [u8]) -> Result<usize, Refusal>
    ensures answer { written_as result ≡ change_written id fields out.old }
    ensures out { out.new ≡ change_out id fields out.old }
{
    if out.len() < CHANGE_SIZE {
        return Err(Refusal::Room);
    }
    Ok(put_change(id, fields, out))
}
