// The list of issued challenges: entries of one width in a caller's buffer, and counts of their
// last octets. An opening spends entries: they are added, unless one of them was issued before.
// Every public function is total.
#![tactic(auto)]

mod counts;
mod entries;

ghost use Rattle.std.specs.Prelude.{◌≡◌};
ghost use Rattle.refusals.specs.Refusal.{told};
ghost use Rattle.issued.specs.Issued.{entries_in, bad_buffer, true_counts};
ghost use Rattle.issued.specs.Issued.{spend_refusal, spent, used_after};

use entries::Sought;
use refusals::Refusal;

// The most places that a buffer may have, and a count for each octet in which an entry may end.
const MOST_PLACES: usize = 4096;

const OCTET_VALUES: usize = 256;

// Whether a buffer is not whole places of width octets, has over 4,096 of them, or fewer than are
// used.
pub fn is_bad_buffer(buffer: &[u8], used: usize, width: usize) -> bool
    ensures { result ≡ bad_buffer width buffer.now used }
{
    if width == 0 || buffer.len() % width != 0 {
        return true;
    }
    let places = buffer.len() / width;
    MOST_PLACES < places || places < used
}

// A count for each octet in which an entry may end.
#[derive(Clone, Copy)]
pub struct LastOctetCounts {
    pub counts: [u16; OCTET_VALUES],
}

// The counts that are true of the used places of buffer, for a caller who does not keep them; zeros
// where the buffer is bad.
pub fn true_counts(buffer: &[u8], used: usize, width: usize) -> LastOctetCounts
    ensures { result.counts ≡ true_counts width used buffer.now }
{
    let mut counts = [0u16; OCTET_VALUES];
    if is_bad_buffer(buffer, used, width) {
        return LastOctetCounts { counts };
    }
    entries::count(&buffer[..width * used], width, &mut counts);
    LastOctetCounts { counts }
}

// Whether the entries of run may be spent. Refusals 24 (the buffer, used or the counts), 16 and 17,
// in that order. There is one pass over the list.
fn may_spend(
    buffer: &[u8],
    used: usize,
    counts: &[u16],
    width: usize,
    run: &[u8],
) -> Result<(), Refusal>
    ensures { told result ≡ spend_refusal width (entries_in width run.now)
        (record { buffer = buffer.now; used = used; counts = counts.now }) }
{
    if is_bad_buffer(buffer, used, width) {
        return Err(Refusal::List);
    }
    let marks = entries::marks_of(run, width);
    let sought = Sought::of(run, width, &marks);
    let mut tally = [0u16; OCTET_VALUES];
    let met = entries::scan(&buffer[..width * used], &sought, &mut tally);
    if tally.as_slice() != counts {
        return Err(Refusal::List);
    }
    if met {
        return Err(Refusal::Issued);
    }
    if buffer.len() / width - used < run.len() / width {
        return Err(Refusal::Full);
    }
    Ok(())
}

// Spends the entries of run, width octets each: adds them behind the used places of buffer and
// raises the counts of their last octets. What of run is no whole entry is left out. Answers how
// many places are used then. Refusals, which leave all as it was: 24 (the buffer, used or the
// counts), 16 (one of them stands in the list), 17 (too few places are left). Entries of run are
// not compared with each other. Buffer, used and counts stay apart: the caller lends each by
// itself.
pub fn spend(
    buffer: &mut [u8],
    used: usize,
    counts: &mut [u16],
    width: usize,
    run: &[u8],
) -> Result<usize, Refusal>
    ensures refusal { told result ≡ spend_refusal width (entries_in width run.now)
        (record { buffer = buffer.old; used = used; counts = counts.old }) }
    ensures list { record {
      buffer = buffer.new;
      used = used_after used result;
      counts = counts.new;
    } ≡ spent width (entries_in width run.now)
        (record { buffer = buffer.old; used = used; counts = counts.old }) }
{
    may_spend(buffer, used, counts, width, run)?;
    let n = run.len() / width;
    octets::copy_at(buffer, width * used, octets::part_of(run, 0, width * n));
    entries::count(run, width, counts);
    Ok(used + n)
}
