// A line by its fields, and one of an account.
ghost use Rattle.std.specs.Prelude.{◌≡◌, true, false, MatchOption};
ghost use Rattle.smbpasswd.specs.Line.{letter_d, letter_x, field, is_absent};
ghost use Rattle.smbpasswd.specs.Line.{is_hash, is_time, is_account};
ghost use Rattle.smbpasswd.specs.Record.{hash_in, has_flag, time_in, is_expired, account_in};
ghost use Rattle.smbpasswd.specs.Inner.{columns_of};

use crate::clock::Clock;
use crate::fields::{is_absent, is_flags, is_hash, is_name, is_time, is_uid};
use crate::lines::{Columns, columns_of, field};

// A line, and where its fields begin.
#[derive(Clone, Copy)]
pub(crate) struct Line<'a> {
    octets: &'a [u8],
    columns: Columns,
    ghost laid: { columns ≡ columns_of octets.now },
}

impl<'a> Line<'a> {
    pub(crate) fn of(octets: &'a [u8]) -> Self
        ensures { result.octets.now ≡ octets.now }
    {
        Line {
            octets,
            columns: columns_of(octets),
        }
    }

    fn name(&self) -> &'a [u8]
        ensures { result.now ≡ field 0 self.now.octets.now }
    {
        field(self.octets, 0, self.columns.uid)
    }

    fn uid(&self) -> &'a [u8]
        ensures { result.now ≡ field 1 self.now.octets.now }
    {
        field(self.octets, self.columns.uid, self.columns.lm)
    }

    fn lm(&self) -> &'a [u8]
        ensures { result.now ≡ field 2 self.now.octets.now }
    {
        field(self.octets, self.columns.lm, self.columns.nt)
    }

    fn nt(&self) -> &'a [u8]
        ensures { result.now ≡ field 3 self.now.octets.now }
    {
        field(self.octets, self.columns.nt, self.columns.flags)
    }

    fn flags(&self) -> &'a [u8]
        ensures { result.now ≡ field 4 self.now.octets.now }
    {
        field(self.octets, self.columns.flags, self.columns.time)
    }

    fn time(&self) -> &'a [u8]
        ensures { result.now ≡ field 5 self.now.octets.now }
    {
        field(self.octets, self.columns.time, self.columns.rest)
    }

    // Whether the line has an account's form.
    fn is_account(&self) -> bool
        ensures { result ≡ is_account self.now.octets.now }
    {
        self.columns.rest <= self.octets.len()
            && is_name(self.name())
            && is_uid(self.uid())
            && is_hash(self.lm())
            && is_hash(self.nt())
            && is_flags(self.flags())
            && is_time(self.time())
    }
}

// A line of an account's form.
#[derive(Clone, Copy)]
pub(crate) struct Entry<'a> {
    line: Line<'a>,
    ghost formed: { is_account line.octets.now ≡ true },
}

impl<'a> Entry<'a> {
    // The entry of a line, unless that has another form.
    pub(crate) fn of(octets: &'a [u8]) -> Option<Self>
        ensures { MatchOption result (is_account octets.now ≡ false)
            (λ e. e.line.octets.now ≡ octets.now) }
    {
        let line = Line::of(octets);
        if line.is_account() {
            return Some(Entry { line });
        }
        None
    }

    pub(crate) fn name(&self) -> &'a [u8]
        ensures { result.now ≡ field 0 self.now.line.octets.now }
    {
        self.line.name()
    }

    // Whether the account is disabled.
    pub(crate) fn is_disabled(&self) -> bool
        ensures { result ≡ has_flag letter_d (field 4 self.now.line.octets.now) }
    {
        has_flag(b'D', self.line.flags())
    }

    // Whether it has no NT hash.
    pub(crate) fn lacks_nt(&self) -> bool
        ensures { result ≡ is_absent (field 3 self.now.line.octets.now) }
    {
        is_absent(self.line.nt())
    }

    // Whether it is expired.
    pub(crate) fn has_expired(&self, clock: Clock) -> bool
        ensures { result ≡ is_expired clock.present clock.max_age
            (has_flag letter_x (field 4 self.now.line.octets.now))
            (time_in (field 5 self.now.line.octets.now)) }
    {
        let never = has_flag(b'X', self.line.flags());
        clock.is_expired(never, time_in(self.line.time()))
    }

    // Its record.
    pub(crate) fn account(&self, clock: Clock) -> accounts::Account
        ensures { result ≡ account_in clock.present clock.max_age self.now.line.octets.now }
    {
        accounts::account_with(
            hash_in(self.line.nt()),
            hash_in(self.line.lm()),
            self.is_disabled(),
            false,
            false,
            self.has_expired(clock),
        )
    }
}

// The hash of a field.
fn hash_in(s: &[u8]) -> accounts::Hash
    requires { is_hash s.now ≡ true }
    ensures { result ≡ hash_in s.now }
{
    if is_absent(s) {
        return accounts::no_hash();
    }
    let mut octets = [0u8; 16];
    octets::decode_hex(s, &mut octets);
    accounts::hash_of(octets)
}

// Whether a flag is among the 11 in brackets.
fn has_flag(c: u8, s: &[u8]) -> bool
    ensures { result ≡ has_flag c s.now }
{
    let flags = octets::part_of(s, 1, 11);
    octets::up_to(flags, c).len() < flags.len()
}

// The time of the last change.
fn time_in(s: &[u8]) -> u32
    requires { is_time s.now ≡ true }
    ensures { result ≡ time_in s.now }
{
    let mut octets = [0u8; 4];
    octets::decode_hex(octets::part_of(s, 4, s.len()), &mut octets);
    octets::u32_from_be(octets[0], octets[1], octets[2], octets[3])
}
