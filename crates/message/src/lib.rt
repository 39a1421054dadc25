// The message of a Failure packet (RFC 2433, section 8): what the peer reads in it, and the text
// that the authenticator writes.
#![tactic(auto)]

pub mod reasons;

ghost use Rattle.std.specs.Prelude.{◌≡◌, true, map, ◌%◌, ◌≤◌, ◌<◌, length, drop};
ghost use Rattle.octets.specs.Digits.{digit_of, hex_of, number_from, pairs};
ghost use Rattle.refusals.specs.Refusal.{told};
ghost use Rattle.message.specs.Message.{longest_message, words, is_field, first_field, field_e};
ghost use Rattle.message.specs.Message.{number_or, called_for, new_challenge_from};
ghost use Rattle.message.specs.Message.{read_fields, read_message, message_refusal};
ghost use Rattle.message.specs.Message.{failure_values, values_of, message_values, text_of};
ghost use Rattle.message.specs.Inner.{kind_of, place, is_new, with_place, Noted};
ghost use Rattle.message.specs.Inner.{digits_at, parsed_at, parsed_in, completed, word_at};
ghost use Rattle.message.specs.Inner.{IfSome, Small, Eight};

use refusals::Refusal;

// What a failure calls for.
#[derive(Clone, Copy)]
pub enum Call {
    // another Response (691, R=1)
    Retry,
    // a version 2 change of the password (648, V at least 2)
    ChangeTwo,
    // a version 1 change (648, V below 2)
    ChangeOne,
    // nothing more
    End,
}

// The fields of a Failure message, C's octets among them where it is given, and what they call for.
#[derive(Clone, Copy)]
pub struct Failed {
    pub e: u64,
    pub r: u64,
    pub v: u64,
    pub c: Option<[u8; 8]>,
    pub call: Call,
}

// What a reply says to the peer.
#[derive(Clone, Copy)]
pub enum Verdict {
    Success,
    Failure(Failed),
}

// A kind of field.
#[derive(Clone, Copy)]
enum Field {
    // E
    Error,
    // R
    Retry,
    // V
    Version,
    // C
    Challenge,
}

// Where the first well-formed field of each kind so far begins in the message. One octet will do,
// as no message over 256 octets is read, and each call of the reading states holds four places.
#[derive(Clone, Copy)]
struct Fields {
    e: Option<u8>,
    r: Option<u8>,
    v: Option<u8>,
    c: Option<u8>,
}

pub const LONGEST_MESSAGE: usize = 256;

// ---- digits

// What stands after a field's letter and '='.
fn digits_of(word: &[u8]) -> &[u8]
    ensures { result.now ≡ drop 2 word.now }
{
    octets::part_of(word, 2, word.len())
}

// The number that digits make.
fn number(digits: &[u8], base: u64) -> u64
    requires { (0 < base) × Small base (map digit_of digits.now) }
    ensures { result ≡ number_from base 0 (map digit_of digits.now) }
{
    let mut value: u64 = 0;
    for &digit in digits {
        value = value * base + octets::digit_value(digit) as u64;
    }
    value
}

// The octets that hexadecimal digits make, two digits to an octet.
fn octets_of(digits: &[u8]) -> [u8; 8]
    requires { Eight (map digit_of digits.now) }
    ensures { result ≡ pairs (map digit_of digits.now) }
{
    let mut out = [0u8; 8];
    octets::decode_hex(digits, &mut out);
    out
}

// ---- the walk: which words are fields

// Whether a word is a field: the letter, '=', and low to high digits of the base.
fn is_field(word: &[u8], letter: u8, base: u8, low: usize, high: usize) -> bool
    ensures { result ≡ is_field letter base low high word.now }
{
    if word.len() < 2 {
        return false;
    }
    if word[0] != letter {
        return false;
    }
    if word[1] != b'=' {
        return false;
    }
    let digits = &word[2..];
    if digits.len() < low {
        return false;
    }
    if high < digits.len() {
        return false;
    }
    octets::are_digits(digits, base)
}

// What kind of field a word is, or none: then it is text to be skipped.
#[tactic(auto, unfolding(crate::specs::Inner::kind_of, crate::specs::Message::field_of))]
fn kind_of(word: &[u8]) -> Option<Field>
    ensures { result ≡ kind_of word.now }
{
    if is_field(word, b'E', 10, 1, 10) {
        return Some(Field::Error);
    }
    if is_field(word, b'R', 2, 1, 1) {
        return Some(Field::Retry);
    }
    if is_field(word, b'V', 10, 1, 10) {
        return Some(Field::Version);
    }
    if is_field(word, b'C', 16, 16, 16) {
        return Some(Field::Challenge);
    }
    None
}

impl Fields {
    // The place of a kind.
    fn place(self, kind: Field) -> Option<u8>
        ensures { result ≡ place self kind }
    {
        match kind {
            Field::Error => self.e,
            Field::Retry => self.r,
            Field::Version => self.v,
            Field::Challenge => self.c,
        }
    }

    // The fields with a place for a kind.
    fn with_place(self, kind: Option<Field>, at: u8) -> Fields
        ensures { result ≡ with_place self kind at }
    {
        match kind {
            Some(Field::Error) => Fields {
                e: Some(at),
                ..self
            },
            Some(Field::Retry) => Fields {
                r: Some(at),
                ..self
            },
            Some(Field::Version) => Fields {
                v: Some(at),
                ..self
            },
            Some(Field::Challenge) => Fields {
                c: Some(at),
                ..self
            },
            None => self,
        }
    }

    // Whether a word is the first field of its kind.
    fn is_new(self, word: &[u8]) -> bool
        ensures { result ≡ is_new self word.now }
    {
        match kind_of(word) {
            Some(kind) => self.place(kind).is_none(),
            None => false,
        }
    }

    // The fields with a word that begins at `from` and is the first field of its kind: one place
    // fewer is missing.
    fn note(self, word: &[u8], from: usize) -> Fields
        requires { (from < 256) × (is_new self word.now ≡ true) }
        ensures { Noted word.now from self result }
    {
        self.with_place(kind_of(word), from as u8)
    }
}

// ---- the walk: the words of the message

// The word that begins at `from`: it goes up to a space, or to the end of the message.
fn word_at(message: &[u8], from: usize) -> &[u8]
    ensures { result.now ≡ word_at message.now from }
{
    octets::up_to(octets::part_of(message, from, message.len()), b' ')
}

// ---- the walk: the two reading states
//
// They call each other where the state changes, and only there: all text that is to be skipped is
// passed in a loop, and `in_field` is called for the first field of a kind alone (its `requires`).
// With each such field one place fewer of the four is missing (`note`). So at most nine calls are
// open at the same time, five of `in_text` and four of `in_field`, however long the message is, and
// whatever a compiler makes of a call in last place: that bounds the stack.

// Inside a field: the word at `from` is the first field of its kind. Behind it there is text again.
#[cycle(in_field_in_text)]
fn in_field(message: &[u8], from: usize, f: Fields) -> Fields
    requires { (length message.now ≤ longest_message)
        × (is_new f (word_at message.now from) ≡ true) }
    ensures { parsed_at message.now result ≡ completed message.now from f }
{
    let word = word_at(message, from);
    let noted = f.note(word, from);
    in_text(message, from + word.len() + 1, noted)
}

// Inside text to be skipped: it goes on to a word that is the first field of its kind. A loop over
// places and no iterator of words: either state takes over at the place where the other stands.
#[cycle(in_field_in_text)]
fn in_text(message: &[u8], at: usize, f: Fields) -> Fields
    requires { length message.now ≤ longest_message }
    ensures { parsed_at message.now result ≡ completed message.now at f }
{
    let mut from = at;
    while from < message.len() {
        let word = word_at(message, from);
        if f.is_new(word) {
            return in_field(message, from, f);
        }
        from = from + word.len() + 1;
    }
    f
}

// ---- the verdict

// The number of the field at a place, or the one that stands for a missing field.
fn number_or(message: &[u8], place: Option<u8>, base: u64, missing: u64) -> u64
    requires { (0 < base) × IfSome (Small base) (digits_at message.now place) }
    ensures { result ≡ number_or base missing (digits_at message.now place) }
{
    match place {
        Some(from) => number(digits_of(word_at(message, from as usize)), base),
        None => missing,
    }
}

// The octets of the field C at a place.
fn new_challenge_at(message: &[u8], place: Option<u8>) -> Option<[u8; 8]>
    requires { IfSome Eight (digits_at message.now place) }
    ensures { result ≡ new_challenge_from (digits_at message.now place) }
{
    match place {
        Some(from) => Some(octets_of(digits_of(word_at(message, from as usize)))),
        None => None,
    }
}

// What a failure with these fields calls for.
fn called_for(e: u64, r: u64, v: u64) -> Call
    ensures { result ≡ called_for e r v }
{
    if e == reasons::AUTHENTICATION_FAILURE as u64 {
        return if r == 1 { Call::Retry } else { Call::End };
    }
    if e == reasons::PASSWORD_EXPIRED as u64 {
        return if 2 <= v {
            Call::ChangeTwo
        } else {
            Call::ChangeOne
        };
    }
    Call::End
}

// What the fields of a message say.
fn judge(message: &[u8], f: Fields) -> Result<Failed, Refusal>
    requires { parsed_at message.now f ≡ parsed_in (words message.now) }
    ensures { result ≡ read_fields (words message.now)
        (first_field field_e (words message.now)) }
{
    let Some(_) = f.e else {
        return Err(Refusal::Kind);
    };
    let e = number_or(message, f.e, 10, 0);
    let r = number_or(message, f.r, 2, 0);
    let v = number_or(message, f.v, 10, 1);
    let c = new_challenge_at(message, f.c);
    let call = called_for(e, r, v);
    Ok(Failed { e, r, v, c, call })
}

// What a Failure packet's message says to the peer. Refusal 11: it is over 256 octets, or has no E.
pub fn read(message: &[u8]) -> Result<Failed, Refusal>
    ensures as_defined { result ≡ read_message message.now }
    ensures number { told result ≡ message_refusal message.now }
    ensures values { values_of failure_values result ≡ message_values message.now }
{
    if LONGEST_MESSAGE < message.len() {
        return Err(Refusal::Kind);
    }
    let none = Fields {
        e: None,
        r: None,
        v: None,
        c: None,
    };
    judge(message, in_text(message, 0, none))
}

// ---- the text

// The last decimal digit of n.
fn last_digit(n: u16) -> u8
    ensures { result ≡ hex_of (n % 10) }
{
    octets::hex_digit((n % 10) as u8)
}

// The message `E=691 R=1 V=2` with the numbers set. Of e the last three decimal digits are written,
// of r and v the last.
#[tactic(auto, unfolding(crate::specs::Message::text_of))]
pub fn text(e: u16, r: u8, v: u8) -> [u8; 13]
    ensures { result ≡ text_of e r v }
{
    [
        b'E',
        b'=',
        last_digit(e / 100),
        last_digit(e / 10),
        last_digit(e),
        b' ',
        b'R',
        b'=',
        last_digit(r as u16),
        b' ',
        b'V',
        b'=',
        last_digit(v as u16),
    ]
}
