// A timetable with a fault is not written back. A stored run of the program.
#![tactic(auto)]

use std::process::ExitCode;

fn main(rt: HostRuntime) -> ExitCode {
    office::serve(&rt)
}
