//! What the commands print, and how they are refused, from their words on.
mod calc;
mod distrib;
mod options;
mod plan;
mod set;
mod topo;
mod words;

use calc_query::CalcFault;
use command_texts::{
    Fault, OptionName, Status, calc_output, distrib_output, line_of, set_output, topo_output,
};
use command_words::{Asked, WordsFault, read_words};
use cpu_set::SetFault;
use distrib_rules::DistribFault;
use out_of_memory::OutOfMemory;
use plan::plan_text;
use run_faults::{CheckFault, PlanFault, SectionFault, SelectFault};
use std::alloc::Global;
use std::process::Abort;
use std::test::Fail;
use synth_text::SynthFault;
use topo_tree::BuildFault;

// Descriptions, and the rows of each, one a line. A row has words, between which a space stands, and behind a bar the lines
// that they print, with a `;` between two, or how they are refused. A `*` stands for the description.
type Tables = &'static [(&'static str, &'static str)];

// Checks what the words of rows print, behind the words in front.
fn answers(rt: &impl Abort, alloc: Global, front: &str, tables: Tables) -> Result<(), Fail> {
    for (description, rows) in tables {
        expect_rows(rt, alloc, front, description, "0 ", rows)?;
    }
    Ok(())
}

// Checks how the words of rows are refused, behind the words in front: the status's code and its line.
fn refuses(rt: &impl Abort, alloc: Global, front: &str, tables: Tables) -> Result<(), Fail> {
    for (description, rows) in tables {
        expect_rows(rt, alloc, front, description, "", rows)?;
    }
    Ok(())
}

// Checks rows on a description: behind the words in front, and with the code before what is told.
fn expect_rows(
    rt: &impl Abort,
    alloc: Global,
    front: &str,
    description: &str,
    code: &str,
    rows: &str,
) -> Result<(), Fail> {
    for row in rows.split('\n') {
        let (words, told) = row.split_once('|').ok_or("a row without a bar")?;
        let line = format!(in alloc; "{front}{words}")?;
        let wanted = lines_of(alloc, code, told)?;
        expect_row(rt, alloc, &line, description, &wanted)?;
    }
    Ok(())
}

fn expect_row(
    rt: &impl Abort,
    alloc: Global,
    line: &str,
    description: &str,
    wanted: &str,
) -> Result<(), Fail> {
    expect(rt, alloc, &listed(alloc, line, description)?, wanted)
}

// The lines that a row tells, behind a code.
fn lines_of(alloc: Global, code: &str, told: &str) -> Result<String, Fail> {
    let mut text = String::from_str(alloc, code)?;
    for line in told.split(';') {
        text.push_str(line)?;
        text.push('\n')?;
    }
    Ok(text)
}

// The words of a line, between which a space stands. A `*` stands for the description.
fn listed<'a>(alloc: Global, line: &'a str, description: &'a str) -> Result<Vec<&'a str>, Fail> {
    let mut words = Vec::new(alloc);
    for word in line.split(' ') {
        words.push(if word == "*" { description } else { word })?;
    }
    Ok(words)
}

// Checks how words end: the status's code, a space, and what is printed or the status's line.
fn expect(rt: &impl Abort, alloc: Global, words: &[&str], wanted: &str) -> Result<(), Fail> {
    let found = ended(alloc, words)?;
    assert_eq!(rt; found.as_slice(), wanted.as_bytes(), "at {words:?}");
    Ok(())
}

// How words end.
fn ended(alloc: Global, words: &[&str]) -> Result<Vec<u8>, Fail> {
    let mut owned = Vec::new(alloc);
    own(alloc, &mut owned, words)?;
    answered(alloc, &owned)
}

// Appends words.
fn own(alloc: Global, owned: &mut Vec<String>, words: &[&str]) -> Result<(), Fail> {
    for word in words {
        owned.push(String::from_str(alloc, word)?)?;
    }
    Ok(())
}

fn answered(alloc: Global, words: &[String]) -> Result<Vec<u8>, Fail> {
    match read_words(alloc, words) {
        Ok(asked) => told(alloc, output(alloc, &asked)),
        Err(WordsFault::Usage) => told(alloc, Err(Status::Usage)),
        Err(WordsFault::OutOfMemory) => told(alloc, Err(Status::OutOfMemory)),
    }
}

// What is printed for what is asked, or the status.
fn output(alloc: Global, asked: &Asked<'_>) -> Result<Vec<u8>, Status> {
    match asked {
        Asked::Run(asked) => plan_text(alloc, *asked),
        Asked::Check(asked) => plan_text(alloc, asked.as_run()),
        Asked::Set { list, text } => set_output(alloc, *list, text),
        Asked::Topo { export, text } => topo_output(alloc, *export, text),
        Asked::Calc(asked) => calc_output(alloc, asked),
        Asked::Distrib(asked) => distrib_output(alloc, asked),
        Asked::Select(_) | Asked::Drill(_) => Err(Status::Usage),
    }
}

fn told(alloc: Global, output: Result<Vec<u8>, Status>) -> Result<Vec<u8>, Fail> {
    match output {
        Ok(printed) => {
            let mut text = b"0 ".to_vec(alloc)?;
            text.extend_from_slice(&printed)?;
            Ok(text)
        }
        Err(status) => {
            let line = line_of(&status);
            Ok(format!(in alloc; "{} {}", status.code(), line.as_str())?.into_bytes())
        }
    }
}

const FAULTS: &[(Fault, &str)] = &[
    (
        Fault::Set(SetFault::Infinite { at: 4 }),
        "the set: the set at byte 4 has no end",
    ),
    (Fault::Synth(SynthFault::Empty), "the description: no level"),
    (
        Fault::Build(BuildFault::IndexTwice { number: 5 }),
        "the topology: the physical number 5 comes twice",
    ),
    (
        Fault::Calc(CalcFault::NoSuchType { word: 1 }),
        "the locations: no such type in word 1",
    ),
    (Fault::TypeOf(OptionName::At), "the type of an option"),
    (
        Fault::Distrib(DistribFault::ZeroMasks),
        "the distribution: no mask",
    ),
    (
        Fault::Plan(PlanFault::TooDeep),
        "the plan: more than 5 levels",
    ),
    (
        Fault::Section(SectionFault::TooManyCallers),
        "the sections: more than 256 sections",
    ),
    (Fault::Select(SelectFault::Keep), "the choice: the keep"),
    (Fault::Input, "the input is too long"),
    (
        Fault::Check(CheckFault::BadHead),
        "the check: the head of the input",
    ),
    (
        Fault::Check(CheckFault::Short),
        "the check: the bytes behind the head of the input",
    ),
];

// Each fault has its words.
#[test]
fn tells_each_fault(rt: HostRuntime) -> Result<(), Fail> {
    for (fault, wanted) in FAULTS {
        let told = format!(in rt.alloc(); "{fault}")?;
        assert_eq!(rt; told.as_str(), *wanted);
    }
    Ok(())
}

// Want of memory has a line too, which no words call forth.
#[test]
fn tells_of_wanted_memory(rt: HostRuntime) -> Result<(), Fail> {
    let line = line_of(&Status::OutOfMemory);
    let code = Status::OutOfMemory.code();
    let told = format!(in rt.alloc(); "{OutOfMemory} {code} {}", line.as_str())?;
    assert_eq!(rt; told.as_str(), "out of memory 7 clof: out of memory\n");
    Ok(())
}
