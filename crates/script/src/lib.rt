// The script language of the vectors (docs/VECTORS.md): the words of a line, octets, numbers and
// key schedules read from its digits, and how octets and results are written. Of a line that is
// not well-formed anything may be read.
#![tactic(auto)]

mod digits;
mod keys;
mod words;
mod writing;

pub use digits::{octets, octets_in};
pub use keys::{names_hash, numbers};
pub use words::{number, octet, word};
pub use writing::{Hex, Keys, put_octets, put_result, put_written};
