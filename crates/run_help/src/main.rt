// Without a word the program tells how to use it. A stored run of the program.
#![tactic(auto)]

use std::process::ExitCode;

fn main(rt: HostRuntime) -> ExitCode {
    office::serve(&rt)
}
