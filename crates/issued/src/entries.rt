// Entries of a run of octets, one behind the other.
ghost use Rattle.std.specs.Prelude.{◌≡◌, ◌<◌, length};
ghost use Rattle.issued.specs.Issued.{octet_values, entries_in, places, last_of};
ghost use Rattle.issued.specs.Issued.{contains, contains_any};
ghost use Rattle.issued.specs.Inner.{raised, CountsFit, Marked};

use crate::OCTET_VALUES;
use crate::counts::raise;

fn last_of(entry: &[u8]) -> u8
    requires { 0 < length entry.now }
    ensures { result ≡ last_of entry.now }
{
    entry[entry.len() - 1]
}

// Whether entry is one of those of run.
fn contains(run: &[u8], entry: &[u8]) -> bool
    requires { 0 < length entry.now }
    ensures { result ≡ contains (entries_in (length entry.now) run.now) entry.now }
{
    // counted, and no iterator: where many entries of a list are sought here, the compiler reads the
    // entry once then, and not for each comparison, which takes half as long again
    let mut rest = run;
    let mut left = run.len() / entry.len();
    while 0 < left {
        let (other, behind) = rest.split_at(entry.len());
        if octets::agree(other, entry) {
            return true;
        }
        rest = behind;
        left -= 1;
    }
    false
}

// Marks of the octets in which the entries of run end.
pub(crate) fn marks_of(run: &[u8], width: usize) -> [bool; OCTET_VALUES]
    requires { 0 < width }
    ensures { Marked result (entries_in width run.now) }
{
    let mut marks = [false; OCTET_VALUES];
    for entry in run.chunks_exact(width) {
        marks[last_of(entry) as usize] = true;
    }
    marks
}

// The entries that are sought, and marks of the octets in which they end, which are lent too, so
// that they are not copied.
#[derive(Drop)]
pub(crate) struct Sought<'a> {
    run: &'a [u8],
    width: usize,
    marks: &'a [bool; OCTET_VALUES],
    ghost some: { 0 < width },
    ghost marked: { Marked marks.now (entries_in width run.now) },
}

impl<'a> Sought<'a> {
    pub(crate) fn of(run: &'a [u8], width: usize, marks: &'a [bool; OCTET_VALUES]) -> Self
        requires { (0 < width) × Marked marks.now (entries_in width run.now) }
        ensures { (result.run.now ≡ run.now) × (result.width ≡ width) }
    {
        Sought { run, width, marks }
    }

    // Whether entry is among them: one whose last octet is not marked needs no comparison.
    pub(crate) fn has(&self, entry: &[u8]) -> bool
        requires { length entry.now ≡ self.now.width }
        ensures { result ≡ contains (entries_in self.now.width self.now.run.now) entry.now }
    {
        self.marks[last_of(entry) as usize] && contains(self.run, entry)
    }
}

// Raises, for each entry of run, the count of its last octet.
pub(crate) fn count(run: &[u8], width: usize, counts: &mut [u16])
    requires { (0 < width) × (length counts.old ≡ octet_values)
        × CountsFit counts.old (places width run.now) }
    ensures { counts.new ≡ raised counts.old (entries_in width run.now) }
{
    for entry in run.chunks_exact(width) {
        raise(counts, last_of(entry));
    }
}

// One pass over the list: raises the counts of its last octets, and tells whether one of its
// entries is sought.
pub(crate) fn scan(list: &[u8], sought: &Sought, counts: &mut [u16]) -> bool
    requires { (length counts.old ≡ octet_values)
        × CountsFit counts.old (places sought.now.width list.now) }
    ensures { (result ≡ contains_any (entries_in sought.now.width sought.now.run.now)
        (entries_in sought.now.width list.now))
        × (counts.new ≡ raised counts.old (entries_in sought.now.width list.now)) }
{
    let mut met = false;
    for entry in list.chunks_exact(sought.width) {
        raise(counts, last_of(entry));
        met |= sought.has(entry);
    }
    met
}
