// Queries by weekdays, with the exceptions of a file. A stored run of the program.
#![tactic(auto)]

use std::process::ExitCode;

fn main(rt: HostRuntime) -> ExitCode {
    office::serve(&rt)
}
