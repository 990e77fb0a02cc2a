// The tool that agents use at a desk and in scripts: `pazhenool --help` tells how.
#![tactic(auto)]

use std::process::ExitCode;

fn main(rt: HostRuntime) -> ExitCode {
    office::serve(&rt)
}
