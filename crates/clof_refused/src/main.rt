//! The program `clof` as the gate runs it on words that it refuses: it ends with another status than 0, and prints nothing.
#![tactic(auto)]

use clof_tool::Process;
use std::process::ExitCode;

fn main(rt: HostRuntime) -> ExitCode {
    let mut process = Process::new(&rt);
    process.serve(&rt, rt.alloc())
}
