// Shows what the peer reads in a Failure message, which is all of standard input: a line end there
// is part of the message.
#![tactic(auto)]

use std::io;

// C's digits, or '-' where it is not given.
fn show_c(rt: &impl Print, c: Option<[u8; 8]>) -> io::Result<()> {
    match c {
        Some(octets) => println!(rt; "C {:016X}", octets::u64_from_be(octets)),
        None => println!(rt; "C -"),
    }
}

// 256 octets are a message at most; one more tells that there were too many.
fn main(rt: HostRuntime) -> io::Result<()> {
    let mut input = [0u8; 257];
    let n = reading::read_full(&mut rt.stdin(), &mut input)?;
    match message::read(&input[..n]) {
        Ok(failed) => {
            println!(rt; "E {}", failed.e)?;
            println!(rt; "R {}", failed.r)?;
            show_c(&rt, failed.c)?;
            println!(rt; "V {}", failed.v)
        }
        Err(refusal) => println!(rt; "refused {refusal}"),
    }
}
