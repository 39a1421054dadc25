// Runs the test vectors of request 2026-07, the script in data/, as `vectors` does with its own:
// what one program may write is nearly used up there.
#![tactic(auto)]

use script_run::Session;
use std::io;

fn main(rt: HostRuntime) -> io::Result<()> {
    let mut output = rt.stdout();
    Session::new().run_script(&rt, &mut output, "cases.txt")
}
