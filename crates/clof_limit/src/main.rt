//! The program `clof` as the gate runs it on an input of too many callers: it ends with status 4, and prints nothing.
#![tactic(auto)]

use clof_tool::Process;
use std::process::ExitCode;

fn main(rt: HostRuntime) -> ExitCode {
    let mut process = Process::new(&rt);
    process.serve(&rt, rt.alloc())
}
