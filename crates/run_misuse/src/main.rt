// A word that asks for nothing is named, on standard error. A stored run of the program.
#![tactic(auto)]

use std::process::ExitCode;

fn main(rt: HostRuntime) -> ExitCode {
    office::serve(&rt)
}
