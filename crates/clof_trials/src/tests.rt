//! The top call over sources and sinks in memory. A row of a table is one call: what it is asked, and how it ends.
mod checks;
mod examples;
mod faults;
mod limits;
mod plans;
mod process;
mod receipts;
mod refusals;
mod select;
mod sizes;
mod words;

use clof_tool::{Status, top_with};
use edge_io::{SureSink, SureSource};
use placed_runner::{Gate, OpenGate};
use std::alloc::Global;
use std::process::Abort;
use std::sync::Wait;
use std::test::Fail;
use std::thread::Threads;

// A command line, the input, and what is printed.
type Printed = (&'static str, &'static [u8], &'static str);

// A command line, the input, how the program ends, and its line on standard error.
type Refused = (&'static str, &'static [u8], Status, &'static str);

// Descriptions, and the rows of each, one a line, in whose words a `*` stands for the description.
type Tables = &'static [(&'static str, &'static str)];

// How a call ends: its status, where that is told, its exit code, and its line on standard error.
type Ending<'a> = (Option<Status>, u8, &'a str);

// The end of a call that answers.
const WELL: Ending<'static> = (Some(Status::Ok), 0, "");

// The words of a command line, of which some may stand between quotes and have spaces.
fn words_of(alloc: Global, line: &str) -> Result<Vec<String>, Fail> {
    let mut words = Vec::new(alloc);
    for (number, part) in line.split('\'').enumerate() {
        if number % 2 == 1 {
            push(&mut words, alloc, part)?;
        } else {
            push_each(&mut words, alloc, part)?;
        }
    }
    Ok(words)
}

fn push(words: &mut Vec<String>, alloc: Global, word: &str) -> Result<(), Fail> {
    words.push(String::from_str(alloc, word)?)?;
    Ok(())
}

fn push_each(words: &mut Vec<String>, alloc: Global, part: &str) -> Result<(), Fail> {
    for word in part.split(' ') {
        if !word.is_empty() {
            push(words, alloc, word)?;
        }
    }
    Ok(())
}

// Calls the program with a gate, and checks how it ends. The answer has what it printed.
fn call<R: Threads + Wait + Sync + Abort, G: Gate + Sync>(
    rt: &R,
    alloc: Global,
    line: &str,
    input: &[u8],
    gate: &G,
    ending: Ending<'_>,
) -> Result<SureSink, Fail> {
    let words = words_of(alloc, line)?;
    let mut source = SureSource::new(input.to_vec(alloc)?);
    let mut out = SureSink::new(alloc, 4_000_000)?;
    let mut err = SureSink::new(alloc, 100)?;
    let status = top_with(rt, alloc, &words, &mut source, &mut out, &mut err, gate);
    has_ended(rt, line, status, err.bytes(), ending);
    Ok(out)
}

// Checks how a call ended.
fn has_ended(
    rt: &impl Abort,
    line: &str,
    status: Status,
    err: &[u8],
    (wanted, code, told): Ending<'_>,
) {
    assert_eq!(rt; status, wanted.unwrap_or(status), "at {line}");
    has_number(rt, line, usize::from(status.code()), usize::from(code));
    has_text(rt, line, err, told);
}

fn has_text(rt: &impl Abort, line: &str, text: &[u8], wanted: &str) {
    assert_eq!(rt; text, wanted.as_bytes(), "at {line}");
}

fn has_number(rt: &impl Abort, line: &str, number: usize, wanted: usize) {
    assert_eq!(rt; number, wanted, "at {line}");
}

// Checks how a call ends, and what it prints.
fn ends<R: Threads + Wait + Sync + Abort>(
    rt: &R,
    alloc: Global,
    (line, input): (&str, &[u8]),
    ending: Ending<'_>,
    text: &str,
) -> Result<(), Fail> {
    let out = call(rt, alloc, line, input, &OpenGate, ending)?;
    has_text(rt, line, out.bytes(), text);
    Ok(())
}

// Checks what the program prints.
fn prints_each<R: Threads + Wait + Sync + Abort>(
    rt: &R,
    alloc: Global,
    rows: &[Printed],
) -> Result<(), Fail> {
    for row in rows {
        let (line, input, text) = *row;
        ends(rt, alloc, (line, input), WELL, text)?;
    }
    Ok(())
}

// Checks what stands last in what a run prints.
fn prints_last<R: Threads + Wait + Sync + Abort>(
    rt: &R,
    alloc: Global,
    input: &[u8],
    end: &str,
) -> Result<(), Fail> {
    let out = call(rt, alloc, "run", input, &OpenGate, WELL)?;
    has_end(rt, end, out.bytes(), end);
    Ok(())
}

// Checks what a text ends with.
fn has_end(rt: &impl Abort, line: &str, text: &[u8], end: &str) {
    let start = text.len().saturating_sub(end.len());
    has_text(rt, line, &text[start..], end);
}

// Checks with which code and status the program ends, its line on standard error, and that it prints nothing.
fn refuses_each<R: Threads + Wait + Sync + Abort>(
    rt: &R,
    alloc: Global,
    code: u8,
    rows: &[Refused],
) -> Result<(), Fail> {
    for row in rows {
        let (line, input, status, told) = *row;
        ends(rt, alloc, (line, input), (Some(status), code, told), "")?;
    }
    Ok(())
}

// A command line, in which the description stands for a `*`.
fn described(alloc: Global, words: &str, description: &str) -> Result<String, Fail> {
    let quoted = format!(in alloc; "'{description}'")?;
    Ok(words.replace(alloc, "*", &quoted)?)
}

// The text that a row tells, in which `/` stands for the end of a line.
fn lines_of(alloc: Global, told: &str) -> Result<String, Fail> {
    Ok(told.replace(alloc, "/", "\n")?)
}

// Checks rows `WORDS|LINES`, in which `/` stands for the end of a line: these words make the program print these lines.
fn answers<R: Threads + Wait + Sync + Abort>(
    rt: &R,
    alloc: Global,
    tables: &[(&str, &str)],
) -> Result<(), Fail> {
    for (description, rows) in tables {
        for row in rows.split('\n') {
            let (words, told) = row.split_once('|').ok_or("a row without lines")?;
            answers_line(rt, alloc, &described(alloc, words, description)?, told)?;
        }
    }
    Ok(())
}

fn answers_line<R: Threads + Wait + Sync + Abort>(
    rt: &R,
    alloc: Global,
    line: &str,
    told: &str,
) -> Result<(), Fail> {
    let mut text = lines_of(alloc, told)?;
    text.push('\n')?;
    ends(rt, alloc, (line, b""), WELL, &text)
}

// Checks rows `WORDS|CODE LINE` or `WORDS|CODE LINE|INPUT`, where `/` stands in the input for the end of a line: these words make the
// program end with this code, print nothing, and tell standard error this line.
fn refuses<R: Threads + Wait + Sync + Abort>(
    rt: &R,
    alloc: Global,
    tables: &[(&str, &str)],
) -> Result<(), Fail> {
    for (description, rows) in tables {
        for row in rows.split('\n') {
            let (words, told) = row.split_once('|').ok_or("a row without a line")?;
            refuses_line(rt, alloc, &described(alloc, words, description)?, told)?;
        }
    }
    Ok(())
}

fn refuses_line<R: Threads + Wait + Sync + Abort>(
    rt: &R,
    alloc: Global,
    line: &str,
    told: &str,
) -> Result<(), Fail> {
    let (told, input) = told.split_once('|').unwrap_or((told, ""));
    let (code, told) = told.split_once(' ').ok_or("a row without a code")?;
    let input = lines_of(alloc, input)?;
    let told = format!(in alloc; "{told}\n")?;
    ends(
        rt,
        alloc,
        (line, input.as_bytes()),
        (None, code.parse()?, &told),
        "",
    )
}

// The input of callers who count together.
fn counting(alloc: Global, callers: usize) -> Result<String, Fail> {
    let section = "worker * 43\nadd n 0 0 1\r\n0\r\nget a\r\nincr n 1\r\nincr n 1\r\n\n";
    Ok(section.repeat(alloc, callers)?)
}
