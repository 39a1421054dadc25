// The lines of a file, and where the fields of one begin.
ghost use Rattle.std.specs.Prelude.{◌≡◌, ◌+◌, ◌≤◌, length, drop};
ghost use Rattle.std.specs.Iterator.{YieldsFirstBy, item_count};
ghost use Rattle.octets.specs.Split.{before};
ghost use Rattle.smbpasswd.specs.Line.{colon, field, is_comment};
ghost use Rattle.smbpasswd.specs.File.{line_at};
ghost use Rattle.smbpasswd.specs.Inner.{columns_of, placed, placed_at};

// ---- lines

// The line that starts at an offset.
pub(crate) fn line_at(file: &[u8], at: usize) -> &[u8]
    ensures { result.now ≡ line_at at file.now }
{
    octets::up_to(octets::part_of(file, at, file.len()), b'\n')
}

// Whether the line is to be skipped.
pub(crate) fn is_comment(line: &[u8]) -> bool
    ensures { result ≡ is_comment line.now }
{
    line.first() == Some(&b'#')
}

// The lines from an offset on, each with the offset at which it starts.
#[derive(Drop)]
pub(crate) struct Lines<'a> {
    file: &'a [u8],
    at: usize,
}

impl<'a> Lines<'a> {
    pub(crate) fn of(file: &'a [u8]) -> Self
        ensures { (result.file.now ≡ file.now) × (result.at ≡ 0) }
    {
        Lines { file, at: 0 }
    }
}

impl<'a> Iterator for Lines<'a> {
    type Item = (usize, &'a [u8]);

    ghost next_gives = { YieldsFirstBy (λ x. placed x.0 x.1.now) (λ s. placed_at s.at s.file.now) };

    ghost remaining = { item_count (λ s. placed_at s.at s.file.now) };

    fn next(&mut self) -> Option<(usize, &'a [u8])> {
        let at = self.at;
        if self.file.len() <= at {
            return None;
        }
        let line = line_at(self.file, at);
        self.at = at + line.len() + 1;
        Some((at, line))
    }
}

// ---- fields

// Where the fields behind the name begin, and the rest of the line: each right behind a colon or,
// where there are fewer, beyond the end of the line.
#[derive(Clone, Copy)]
pub(crate) struct Columns {
    pub uid: usize,
    pub lm: usize,
    pub nt: usize,
    pub flags: usize,
    pub time: usize,
    pub rest: usize,
}

// Where the field behind the one at a place begins.
fn next_column(line: &[u8], at: usize) -> usize
    requires { at ≤ length line.now + 5 }
    ensures { result ≡ at + length (before colon (drop at line.now)) + 1 }
{
    let field = octets::up_to(octets::part_of(line, at, line.len()), b':');
    at + field.len() + 1
}

// Where each field begins.
pub(crate) fn columns_of(line: &[u8]) -> Columns
    ensures { result ≡ columns_of line.now }
{
    let uid = next_column(line, 0);
    let lm = next_column(line, uid);
    let nt = next_column(line, lm);
    let flags = next_column(line, nt);
    let time = next_column(line, flags);
    let rest = next_column(line, time);
    Columns {
        uid,
        lm,
        nt,
        flags,
        time,
        rest,
    }
}

// The field at a place, up to the colon before the next one.
pub(crate) fn field(line: &[u8], at: usize, next: usize) -> &[u8]
    requires { next ≡ at + length (before colon (drop at line.now)) + 1 }
    ensures { result.now ≡ before colon (drop at line.now) }
{
    octets::part_of(line, at, next - at - 1)
}
