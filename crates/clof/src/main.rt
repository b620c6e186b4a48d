//! The program `clof`: does in its process what the words behind its name ask.
#![tactic(auto)]

use clof_tool::Process;
use std::process::ExitCode;

fn main(rt: HostRuntime) -> ExitCode {
    let mut process = Process::new(&rt);
    process.serve(&rt, rt.alloc())
}
