// What is written into a line: a hash, and the time.
ghost use Rattle.std.specs.Prelude.{◌≡◌};
ghost use Rattle.octets.specs.Digits.{hex_text};
ghost use Rattle.octets.specs.Numbers.{to_be};
ghost use Rattle.smbpasswd.specs.Write.{hash_text};

pub(crate) fn hash_text(hash: accounts::Hash) -> [u8; 32]
    ensures { result ≡ hash_text hash }
{
    let mut text = [b'X'; 32];
    if hash.present {
        let octets = hash.octets;
        octets::encode_hex(&octets, &mut text);
    }
    text
}

// The digits of a time.
pub(crate) fn time_digits(present: u32) -> [u8; 8]
    ensures { result ≡ hex_text (to_be 4 present) }
{
    let octets = octets::u32_to_be(present);
    let mut text = [0u8; 8];
    octets::encode_hex(&octets, &mut text);
    text
}
