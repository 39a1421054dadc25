// The file: where the line of a name starts, its record, and a changed record written back.
ghost use Rattle.std.specs.Prelude.{◌≡◌};
ghost use Rattle.octets.specs.Digits.{hex_text};
ghost use Rattle.octets.specs.Numbers.{to_be};
ghost use Rattle.octets.specs.Parts.{over_at};
ghost use Rattle.smbpasswd.specs.File.{Line, place_of, located, found_at};
ghost use Rattle.smbpasswd.specs.Write.{hash_text, written_at, written_in};
ghost use Rattle.smbpasswd.specs.Inner.{place_in, one_more, one_bad, after_line, IsLine};

use crate::clock::Clock;
use crate::entries::Entry;
use crate::lines::{Lines, columns_of, is_comment, line_at};
use crate::texts::{hash_text, time_digits};
use crate::{AccountLine, Misplaced};

// ---- where the line of a name starts

// One line more of the name, at an offset: the first has the offset.
fn one_more(place: Result<Option<usize>, Misplaced>, at: usize) -> Result<Option<usize>, Misplaced>
    ensures { result ≡ located (one_more at (place_in place)) }
{
    match place? {
        None => Ok(Some(at)),
        Some(first) => Err(Misplaced::Doubled(first)),
    }
}

// One line more of another form: the first of these counts before all others.
fn one_bad(place: Result<Option<usize>, Misplaced>, at: usize) -> Result<Option<usize>, Misplaced>
    ensures { result ≡ located (one_bad at (place_in place)) }
{
    match place {
        Err(Misplaced::Malformed(_)) => place,
        Err(Misplaced::Doubled(_)) => Err(Misplaced::Malformed(at)),
        Ok(_) => Err(Misplaced::Malformed(at)),
    }
}

// The place after one line more, which starts at an offset.
fn after_line(
    name: &[u8],
    place: Result<Option<usize>, Misplaced>,
    at: usize,
    line: &[u8],
) -> Result<Option<usize>, Misplaced>
    ensures { result ≡ located (after_line name.now (place_in place) at line.now) }
{
    if is_comment(line) {
        return place;
    }
    let Some(entry) = Entry::of(line) else {
        return one_bad(place, at);
    };
    if octets::agree(entry.name(), name) {
        return one_more(place, at);
    }
    place
}

// Where the line of a name starts, if it is on one. There is one pass over the file.
pub fn locate(file: &[u8], name: &[u8]) -> Result<Option<usize>, Misplaced>
    ensures { result ≡ located (place_of name.now file.now) }
{
    let mut place = Ok(None);
    for (at, line) in Lines::of(file) {
        place = after_line(name, place, at, line);
    }
    place
}

// ---- the record of a name

// The record of a name and its line, if it is on one, given the present time and the maximum age of
// a password.
pub fn find(
    file: &[u8],
    name: &[u8],
    present: u32,
    max_age: u32,
) -> Result<Option<AccountLine>, Misplaced>
    ensures { result ≡ found_at present max_age file.now (place_of name.now file.now) }
{
    let Some(offset) = locate(file, name)? else {
        return Ok(None);
    };
    let clock = Clock { present, max_age };
    let account = Entry::of(line_at(file, offset)).unwrap().account(clock);
    Ok(Some(AccountLine { offset, account }))
}

// ---- a record written back

// Writes the hashes of an account and the present time, each at its offset.
fn write_fields(
    file: &mut [u8],
    lm: usize,
    nt: usize,
    time: usize,
    account: accounts::Account,
    present: u32,
)
    ensures { file.new
        ≡ over_at time (hex_text (to_be 4 present)) (over_at nt (hash_text account.nt)
        (over_at lm (hash_text account.lm) file.old)) }
{
    octets::copy_at(file, lm, &hash_text(account.lm));
    octets::copy_at(file, nt, &hash_text(account.nt));
    octets::copy_at(file, time, &time_digits(present));
}

// Writes them into the line at an offset.
fn write_line(file: &mut [u8], at: usize, account: accounts::Account, present: u32)
    requires { IsLine at file.old }
    ensures { file.new ≡ written_at account present file.old (Line at) }
{
    let c = columns_of(line_at(file, at));
    let lm = at + c.lm;
    let nt = at + c.nt;
    let time = at + c.time + 4;
    write_fields(file, lm, nt, time, account, present);
}

// Writes a changed record into the line of its name, with the present time as that of the last
// change. Where the name is on no line, or 14 or 15 is answered, nothing is written.
pub fn write_back(
    file: &mut [u8],
    name: &[u8],
    account: accounts::Account,
    present: u32,
) -> Result<Option<usize>, Misplaced>
    ensures place { result ≡ located (place_of name.now file.old) }
    ensures written { file.new ≡ written_in name.now account present file.old }
{
    let place = locate(file, name)?;
    if let Some(at) = place {
        write_line(file, at, account, present);
    }
    Ok(place)
}
