// Refusals: which one is answered where several tests could refuse (document 01, "Refusal
// numbers").
//
// A function that can refuse answers a `Result` with a `Refusal`, and each of those has its number,
// by which C and the programs tell it.
#![tactic(auto)]

ghost use Rattle.std.specs.Prelude.{◌≡◌};
ghost use Rattle.refusals.specs.Refusal.{number};

use std::fmt;

// Why something is refused (1 and 4 to 7 for a packet that is no repeat). From 100 on the numbers
// are ours, for what document 01 does not speak of.
#[derive(Clone, Copy, Debug, PartialEq, Eq)]
pub enum Refusal {
    // the conversation has ended
    Ended = 1,
    // reply buffer under 17 octets
    ReplyBuffer = 2,
    // packet under 4 octets, or its Length under 4 or over what was passed
    Frame = 3,
    // code is not the awaited one
    Code = 4,
    // identifier is not the awaited one; for the peer, not that of its last packet
    Identifier = 5,
    // Response Length or size wrong; change Length not the one of its version
    Size = 6,
    // Response flag not 0 or 1; a change's flags have a bit that is not one of its version's
    Flags = 7,
    // NT password odd or over 512 octets, LM password over 14, MD4 input over 4,096, RC4 key empty
    // or over 256
    Input = 8,
    // the peer's output buffer is too small
    Room = 9,
    // name to be written is empty or over 256 octets
    Name = 10,
    // peer's packet of another kind than wanted, a Challenge cut short or of size other than 8, or
    // a Failure message without E or over 256 octets
    Kind = 11,
    // filler not 512 octets
    Filler = 12,
    // r over 7
    Retries = 13,
    // a line of the account file has another form; another first line of `acctsum`'s input, a
    // number past 32 bits in it, or over 64 KiB
    Line = 14,
    // the name sought is on two lines of the account file
    Doubled = 15,
    // a challenge to be spent is in the list of issued ones
    Issued = 16,
    // too few places are left in that list
    Full = 17,
    // the limit of invalid Responses in a row is 0
    Limit = 18,
    // the list is bad: its places, the used ones or its counts
    List = 24,
    // an argument from C that is not valid (`layouts`)
    Argument = 100,
    // a text that is not UTF-8, or characters that are not UTF-16 (`unicode_text`)
    Text = 101,
    // an answer that has no record to be stored (`numbers`), or the record of no account
    Record = 102,
    // a name that is on no line of the account file (`account_files`)
    Nowhere = 103,
}

impl Refusal {
    // The number that document 01 gives it.
    pub fn number(self) -> u8
        ensures { result ≡ number self }
    {
        self as u8
    }
}

impl fmt::Display for Refusal {
    fn fmt<W: fmt::Write>(&self, f: &mut fmt::Formatter<W>) -> fmt::Result {
        write!(f, "{}", self.number())
    }
}
