// The form of each field.
ghost use Rattle.std.specs.Prelude.{◌≡◌};
ghost use Rattle.smbpasswd.specs.Line.{begins, is_name, is_uid, is_absent, is_hash};
ghost use Rattle.smbpasswd.specs.Line.{is_flags, is_time};

// Whether s begins with front. `agree`, as the time tells nothing of where they differ: s may be
// the digits of a hash.
fn begins(front: &[u8], s: &[u8]) -> bool
    ensures { result ≡ begins front.now s.now }
{
    octets::agree(octets::part_of(s, 0, front.len()), front)
}

pub(crate) fn is_name(s: &[u8]) -> bool
    ensures { result ≡ is_name s.now }
{
    (1..=256).contains(&s.len())
}

pub(crate) fn is_uid(s: &[u8]) -> bool
    ensures { result ≡ is_uid s.now }
{
    1 <= s.len() && s.len() <= 10 && octets::are_digits(s, 10)
}

// Whether the field of a hash says that there is none.
pub(crate) fn is_absent(s: &[u8]) -> bool
    ensures { result ≡ is_absent s.now }
{
    begins(b"X", s) || begins(b"NO PASSWORD", s)
}

pub(crate) fn is_hash(s: &[u8]) -> bool
    ensures { result ≡ is_hash s.now }
{
    s.len() == 32 && (is_absent(s) || octets::are_digits(s, 16))
}

pub(crate) fn is_flags(s: &[u8]) -> bool
    ensures { result ≡ is_flags s.now }
{
    s.len() == 13 && s[0] == b'[' && s[12] == b']'
}

pub(crate) fn is_time(s: &[u8]) -> bool
    ensures { result ≡ is_time s.now }
{
    s.len() == 12 && begins(b"LCT-", s) && octets::are_digits(octets::part_of(s, 4, s.len()), 16)
}
