// The accounts of a file counted, and the input of `acctsum`.
ghost use Rattle.std.specs.Prelude.{◌≡◌, ◌^◌};
ghost use Rattle.smbpasswd.specs.Summary.{counts_of, summary_of};
ghost use Rattle.smbpasswd.specs.Inner.{count_line, Within, number_in};

use crate::Counts;
use crate::clock::Clock;
use crate::entries::Entry;
use crate::lines::{Lines, is_comment};
use refusals::Refusal;

// ---- counted

// The counts after one line more.
fn count_line(k: Counts, line: &[u8], clock: Clock) -> Counts
    requires { Within (2 ^ 63) k }
    ensures { result ≡ count_line clock.present clock.max_age k line.now }
{
    if is_comment(line) {
        return k;
    }
    let Some(entry) = Entry::of(line) else {
        return Counts {
            lines: k.lines + 1,
            bad: k.bad + 1,
            ..k
        };
    };
    Counts {
        lines: k.lines + 1,
        disabled: k.disabled + usize::from(entry.is_disabled()),
        expired: k.expired + usize::from(entry.has_expired(clock)),
        no_nt: k.no_nt + usize::from(entry.lacks_nt()),
        ..k
    }
}

// The accounts of a file. There is one pass over it.
pub fn count(file: &[u8], present: u32, max_age: u32) -> Counts
    ensures { result ≡ counts_of present max_age file.now }
{
    let clock = Clock { present, max_age };
    let mut k = Counts::default();
    for (_, line) in Lines::of(file) {
        k = count_line(k, line, clock);
    }
    k
}

// ---- the input of `acctsum`

const LONGEST_INPUT: usize = 65536;

// A decimal number of 32 bits, if it is one.
fn number_in(s: &[u8]) -> Option<u32>
    ensures { result ≡ number_in s.now }
{
    if s.is_empty() || !octets::are_digits(s, 10) {
        return None;
    }
    let mut value: u32 = 0;
    for octet in s {
        let longer = u64::from(value) * 10 + octets::digit_value(*octet) as u64;
        value = u32::try_from(longer).ok()?;
    }
    Some(value)
}

// The counts of a file, with the present time and the maximum age in a line before it, and
// refusal 14 where those are not there.
pub fn summarize(input: &[u8]) -> Result<Counts, Refusal>
    ensures { result ≡ summary_of input.now }
{
    if LONGEST_INPUT < input.len() {
        return Err(Refusal::Line);
    }
    let head = octets::up_to(input, b'\n');
    let file = octets::part_of(input, head.len() + 1, input.len());
    let first = octets::up_to(head, b' ');
    if head.len() == first.len() {
        return Err(Refusal::Line);
    }
    let second = octets::part_of(head, first.len() + 1, head.len());
    let Some(present) = number_in(first) else {
        return Err(Refusal::Line);
    };
    let Some(max_age) = number_in(second) else {
        return Err(Refusal::Line);
    };
    Ok(count(file, present, max_age))
}
