// Runs two scripts of test vectors, which stand in data/; the program of reference/, which shares
// no code with these crates, reads the same scripts and must write the same lines.
#![tactic(auto)]

use script_run::Session;
use std::io;

fn main(rt: HostRuntime) -> io::Result<()> {
    let mut output = rt.stdout();
    let mut session = Session::new();
    session.run_script(&rt, &mut output, "published.txt")?;
    session.run_script(&rt, &mut output, "cases.txt")
}
