// Runs scripts of test vectors, read from files, through the public functions, and writes what
// they compute: what the programs of the vectors share. The script language: docs/VECTORS.md.
#![tactic(auto)]

mod lines;

pub use lines::Session;
use std::io::{Read, Write};
use std::rt::Files;
use std::{fs, io};

// Reads a script. Answers how many octets it has.
fn read_script(file: &mut impl Read, script: &mut [u8; 1048576]) -> io::Result<usize> {
    reading::read_full(file, script)
}

// Runs the first n octets of a script. The array is passed whole: the check of a slice of one grows
// with its length.
fn run_part(
    session: &mut Session,
    output: &mut impl Write,
    script: &[u8; 1048576],
    n: usize,
) -> io::Result<()> {
    session.run_lines(output, octets::part_of(script, 0, n))
}

impl Session {
    // One script, from the state in which the one before it ended. Of a script that does not open,
    // standard error is told, and nothing is run.
    pub fn run_script<R: Files + Eprint>(
        &mut self,
        rt: &R,
        output: &mut impl Write,
        path: &str,
    ) -> io::Result<()> {
        let mut file = match fs::open(rt, path) {
            Ok(file) => file,
            Err(error) => return eprintln!(rt; "{path}: {error}"),
        };
        let mut script = [0u8; 1048576];
        let n = read_script(&mut file, &mut script)?;
        run_part(self, output, &script, n)
    }
}
