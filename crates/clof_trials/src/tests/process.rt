//! A process over streams of each kind in memory: an input that is read, many words, streams that are full or fail, and no words.
use super::{has_text, words_of};
use clof_tool::Process;
use edge_io::{MemSink, MemSource, Sink, Source, SureSink, SureSource};
use std::alloc::Global;
use std::io;
use std::io::ErrorKind;
use std::process::{Abort, ExitCode};
use std::sync::Wait;
use std::test::Fail;
use std::thread::Threads;

// A process with the words of a command line.
fn process<S: Source + Drop, K: Sink + Drop>(
    alloc: Global,
    line: &str,
    input: S,
    output: K,
) -> Result<Process<S, K, SureSink>, Fail> {
    let words = words_of(alloc, line)?;
    let errors = SureSink::new(alloc, 100)?;
    Ok(Process::over(Ok(words), input, output, errors))
}

// A source with these bytes.
fn source(alloc: Global, input: &[u8]) -> Result<SureSource, Fail> {
    Ok(SureSource::new(input.to_vec(alloc)?))
}

// The exit code of a process, and what it wrote to the output and to standard error.
type Told<'a> = (u8, &'a str, &'a str);

// Checks how a process ended: its exit code, and what its output and standard error then hold.
fn has_served(
    rt: &impl Abort,
    line: &str,
    ended: ExitCode,
    (out, err): (&[u8], &[u8]),
    (code, printed, told): Told<'_>,
) {
    assert_eq!(rt; ended, ExitCode::from(code), "at {line}");
    has_text(rt, line, out, printed);
    has_text(rt, line, err, told);
}

// Checks that a process with the words of a command line and an input ends so.
fn serves<R: Threads + Wait + Sync + Abort, S: Source + Drop>(
    rt: &R,
    alloc: Global,
    line: &str,
    input: S,
    told: Told<'_>,
) -> Result<(), Fail> {
    let mut run = process(alloc, line, input, SureSink::new(alloc, 200)?)?;
    let ended = run.serve(rt, alloc);
    let held = (run.output().bytes(), run.errors().bytes());
    has_served(rt, line, ended, held, told);
    Ok(())
}

// A command line, the input, the exit code, and what is written to the output and to standard error: a run on a description, twenty words
// of which the last decides, and a refused section.
const CALLS: &[(&str, &str, u8, &str, &str)] = &[
    (
        "run 'Core:2 PU:1'",
        "worker core:1 7\nget a\r\n\n",
        0,
        "turn 0 caller 0 pu 1 climb 0 tests 0 left 0 \"get a\\r\\n\" \"END\\r\\n\"\ncaller 0 pu 1 commands 1 rest 0\n",
        "",
    ),
    (
        "calc --taskset PU:20 pu:0 pu:1 pu:2 pu:3 pu:4 pu:5 pu:6 pu:7 pu:8 pu:9 pu:10 pu:11 pu:12 pu:13 pu:14 pu:15 ~pu:0",
        "",
        0,
        "0xfffe\n",
        "",
    ),
    (
        "run PU:1",
        "walker * 0\n\n",
        3,
        "",
        "clof: section BadHead 0\n",
    ),
];

#[test]
fn serves_calls(rt: HostRuntime) -> Result<(), Fail> {
    let alloc = rt.alloc();
    for (line, input, code, out, err) in CALLS {
        let input = source(alloc, input.as_bytes())?;
        serves(&rt, alloc, line, input, (*code, *out, *err))?;
    }
    Ok(())
}

#[test]
fn tells_of_an_input_that_fails(rt: HostRuntime) -> Result<(), Fail> {
    let alloc = rt.alloc();
    let input = MemSource::new(b"worker * 0\n\n".to_vec(alloc)?, 8, [1].to_vec(alloc)?);
    serves(&rt, alloc, "run", input, (5, "", "clof: read fault\n"))
}

#[test]
fn tells_of_a_full_output(rt: HostRuntime) -> Result<(), Fail> {
    let alloc = rt.alloc();
    let output = MemSink::new(alloc, 5, 2, Vec::new(alloc))?;
    let mut set = process(alloc, "set 0x1", source(alloc, b"")?, output)?;
    let ended = set.serve(&rt, alloc);
    let held = (set.output().bytes(), set.errors().bytes());
    let told = (6, "0x000", "clof: write fault 5\n");
    has_served(&rt, "set 0x1", ended, held, told);
    Ok(())
}

// Checks how a process ends whose words can't be had for an error of this kind.
fn ends_wordless<R: Threads + Wait + Sync + Abort>(
    rt: &R,
    alloc: Global,
    kind: ErrorKind,
    code: u8,
    err: &str,
) -> Result<(), Fail> {
    let (output, errors) = (SureSink::new(alloc, 100)?, SureSink::new(alloc, 100)?);
    let words = Err(io::Error::from(kind));
    let mut wordless = Process::over(words, source(alloc, b"")?, output, errors);
    let ended = wordless.serve(rt, alloc);
    let held = (wordless.output().bytes(), wordless.errors().bytes());
    has_served(rt, "no words", ended, held, (code, "", err));
    Ok(())
}

#[test]
fn tells_why_there_are_no_words(rt: HostRuntime) -> Result<(), Fail> {
    let alloc = rt.alloc();
    ends_wordless(&rt, alloc, ErrorKind::InvalidData, 2, "clof: usage\n")?;
    ends_wordless(
        &rt,
        alloc,
        ErrorKind::OutOfMemory,
        7,
        "clof: out of memory\n",
    )
}
