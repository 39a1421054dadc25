// Counts of last octets.
ghost use Rattle.std.specs.Prelude.{◌≡◌, ◌<◌, length, get_or};
ghost use Rattle.issued.specs.Issued.{octet_values};
ghost use Rattle.issued.specs.Inner.{raised_at};

// Raises the count of an octet.
pub(crate) fn raise(counts: &mut [u16], octet: u8)
    requires { (length counts.old ≡ octet_values) × (get_or counts.old octet 0 < 65535) }
    ensures { counts.new ≡ raised_at counts.old octet }
{
    counts[octet as usize] += 1;
}
