// An account file in Samba's smbpasswd(5) layout, in a caller's buffer: an account looked up, a
// changed record written back into its line, the accounts counted. Every public function is total.
#![tactic(auto)]

mod clock;
mod entries;
mod fields;
mod files;
mod lines;
mod summaries;
mod texts;

ghost use Rattle.std.specs.Prelude.{◌≡◌};
ghost use Rattle.smbpasswd.specs.File.{misplaced_refusal, misplaced_offset};

pub use files::{find, locate, write_back};
use refusals::Refusal;
pub use summaries::{count, summarize};

// Why a name has no line that counts.
#[derive(Clone, Copy, Debug, PartialEq, Eq)]
pub enum Misplaced {
    // refusal 15: it is on two lines or more, the first of which starts at this offset
    Doubled(usize),
    // refusal 14: the first line of another form, of any name, starts at this offset
    Malformed(usize),
}

impl Misplaced {
    pub fn refusal(self) -> Refusal
        ensures { result ≡ misplaced_refusal self }
    {
        match self {
            Misplaced::Doubled(_) => Refusal::Doubled,
            Misplaced::Malformed(_) => Refusal::Line,
        }
    }

    pub fn offset(self) -> usize
        ensures { result ≡ misplaced_offset self }
    {
        match self {
            Misplaced::Doubled(at) | Misplaced::Malformed(at) => at,
        }
    }
}

// The account of a name, and where its line starts.
#[derive(Clone, Copy)]
pub struct AccountLine {
    pub offset: usize,
    pub account: accounts::Account,
}

// How many lines there are, of another form, and of accounts that are disabled, that are expired
// and that have no NT hash.
#[derive(Clone, Copy, Debug, Default, PartialEq, Eq)]
pub struct Counts {
    pub lines: usize,
    pub bad: usize,
    pub disabled: usize,
    pub expired: usize,
    pub no_nt: usize,
}
