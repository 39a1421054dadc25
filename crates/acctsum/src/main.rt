// Counts the accounts of a file in Samba's smbpasswd(5) layout. Standard input has a line with the
// present time and the maximum age of a password, and then the file. What is counted is said and
// proved in `smbpasswd`.
#![tactic(auto)]

use refusals::Refusal;
use smbpasswd::Counts;
use std::io;
use std::io::Read;

// 65,536 octets are read at most; one more tells that there were too many. The array is passed
// whole, as the check of a slice of one grows with its length.
fn read_input(stream: &mut impl Read, input: &mut [u8; 65537]) -> io::Result<usize> {
    reading::read_full(stream, input)
}

fn summarize(input: &[u8; 65537], n: usize) -> Result<Counts, Refusal> {
    smbpasswd::summarize(octets::part_of(input, 0, n))
}

fn main(rt: HostRuntime) -> io::Result<()> {
    let mut input = [0u8; 65537];
    let n = read_input(&mut rt.stdin(), &mut input)?;
    match summarize(&input, n) {
        Err(refusal) => println!(rt; "refused {refusal}"),
        Ok(counts) => {
            println!(rt; "lines {}", counts.lines)?;
            println!(rt; "bad {}", counts.bad)?;
            println!(rt; "disabled {}", counts.disabled)?;
            println!(rt; "expired {}", counts.expired)?;
            println!(rt; "no-nt {}", counts.no_nt)
        }
    }
}
