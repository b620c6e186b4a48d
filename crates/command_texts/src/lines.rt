//! The line that tells of a status, in room on the stack.
ghost use Rattle.std.specs.Prelude.{◌≡◌, ◌≤◌, ◌+◌, ◌++◌, codes, length};
ghost use Rattle.arrayvec.specs.ArrayString.{array_string_len};
ghost use Rattle.command_texts.specs.Line.{with_number, set_message, synth_message, build_message, calc_message, type_message};
ghost use Rattle.command_texts.specs.Line.{distrib_message};
ghost use Rattle.command_texts.specs.Line.{plan_message, section_message, select_message, check_message};
ghost use Rattle.command_texts.specs.Line.{fault_message, line_with, line_of};

use crate::{Fault, OptionName, Status};
use arrayvec::ArrayString;
use calc_query::CalcFault;
use cpu_set::SetFault;
use distrib_rules::DistribFault;
use itoa::Buffer;
use run_faults::{CheckFault, PlanFault, SectionFault, SelectFault};
use synth_text::SynthFault;
use topo_tree::BuildFault;

// Room for each line: `clof: `, a text of at most 32 bytes, two numbers of at most 20 digits, and the line end.
const ROOM: usize = 96;

/// A line.
pub type Line = ArrayString<ROOM>;

/// The line that tells of a status that isn't Ok.
#[tactic(auto, unfolding(crate::specs::Line::line_of))]
pub fn line_of(status: &Status) -> Line
    ensures { result.bytes ≡ line_of status.now }
{
    match status {
        Status::Ok => saying(""),
        Status::Usage => saying("usage"),
        Status::Malformed(fault) | Status::Limit(fault) => fault_line(fault),
        Status::ReadFault => saying("read fault"),
        Status::WriteFault { written } => saying_number("write fault", *written as u64),
        Status::OutOfMemory => saying("out of memory"),
    }
}

// The area, the fault's name and its numbers.
fn fault_line(fault: &Fault) -> Line
    ensures { result.bytes ≡ line_with (fault_message fault.now) }
{
    match fault {
        Fault::Set(fault) => set_line(fault),
        Fault::Synth(fault) => synth_line(fault),
        Fault::Build(fault) => build_line(fault),
        Fault::Calc(fault) => calc_line(fault),
        Fault::TypeOf(option) => type_line(option),
        Fault::Distrib(fault) => distrib_line(fault),
        Fault::Plan(fault) => plan_line(fault),
        Fault::Section(fault) => section_line(fault),
        Fault::Select(fault) => select_line(fault),
        Fault::Input => saying("input"),
        Fault::Check(fault) => check_line(fault),
    }
}

fn set_line(fault: &SetFault) -> Line
    ensures { result.bytes ≡ line_with (set_message fault.now) }
{
    match fault {
        SetFault::Form { at } => saying_number("set Form", *at as u64),
        SetFault::TooLarge { at } => saying_number("set TooLarge", *at as u64),
        SetFault::Infinite { at } => saying_number("set Infinite", *at as u64),
    }
}

fn section_line(fault: &SectionFault) -> Line
    ensures { result.bytes ≡ line_with (section_message fault.now) }
{
    match fault {
        SectionFault::BadHead { at } => saying_number("section BadHead", *at as u64),
        SectionFault::BadPlace { at } => saying_number("section BadPlace", *at as u64),
        SectionFault::Short { at } => saying_number("section Short", *at as u64),
        SectionFault::TooManyCallers => saying("section TooManyCallers"),
        SectionFault::OutOfMemory => saying("out of memory"),
    }
}

fn select_line(fault: &SelectFault) -> Line
    ensures { result.bytes ≡ line_with (select_message fault.now) }
{
    match fault {
        SelectFault::Weights => saying("select Weights"),
        SelectFault::Keep => saying("select Keep"),
        SelectFault::Line { at } => saying_number("select Line", *at as u64),
        SelectFault::Place { at } => saying_number("select Place", *at as u64),
        SelectFault::TooManyTurns => saying("select TooManyTurns"),
        SelectFault::OutOfMemory => saying("out of memory"),
    }
}

fn check_line(fault: &CheckFault) -> Line
    ensures { result.bytes ≡ line_with (check_message fault.now) }
{
    match fault {
        CheckFault::BadHead => saying("check BadHead"),
        CheckFault::Short => saying("check Short"),
    }
}

fn synth_line(fault: &SynthFault) -> Line
    ensures { result.bytes ≡ line_with (synth_message fault.now) }
{
    match fault {
        SynthFault::Empty => saying("synth Empty"),
        SynthFault::BadType { at } => saying_number("synth BadType", *at as u64),
        SynthFault::BadArity { at } => saying_number("synth BadArity", *at as u64),
        SynthFault::BadAttr { at } => saying_number("synth BadAttr", *at as u64),
        SynthFault::BadIndexes { at } => saying_number("synth BadIndexes", *at as u64),
        SynthFault::LastNotPu { at } => saying_number("synth LastNotPu", *at as u64),
        SynthFault::RepeatedType { at } => saying_number("synth RepeatedType", *at as u64),
        SynthFault::TooManyLevels => saying("synth TooManyLevels"),
        SynthFault::TooManyObjects => saying("synth TooManyObjects"),
        SynthFault::OutOfMemory => saying("out of memory"),
    }
}

fn build_line(fault: &BuildFault) -> Line
    ensures { result.bytes ≡ line_with (build_message fault.now) }
{
    match fault {
        BuildFault::IndexCount { found, wanted } => {
            saying_two("build IndexCount", u64::from(*found), u64::from(*wanted))
        }
        BuildFault::IndexRange { number } => saying_number("build IndexRange", u64::from(*number)),
        BuildFault::IndexTwice { number } => saying_number("build IndexTwice", u64::from(*number)),
        BuildFault::OutOfMemory => saying("out of memory"),
    }
}

fn calc_line(fault: &CalcFault) -> Line
    ensures { result.bytes ≡ line_with (calc_message fault.now) }
{
    match fault {
        CalcFault::Location { word, at } => {
            saying_two("location Location", u64::from(*word), *at as u64)
        }
        CalcFault::NoSuchType { word } => saying_number("location NoSuchType", u64::from(*word)),
        CalcFault::OutOfMemory => saying("out of memory"),
    }
}

fn type_line(option: &OptionName) -> Line
    ensures { result.bytes ≡ line_with (type_message option.now) }
{
    match option {
        OptionName::Intersect => saying("type -I"),
        OptionName::NumberOf => saying("type -N"),
        OptionName::Hierarchical => saying("type -H"),
        OptionName::From => saying("type --from"),
        OptionName::To => saying("type --to"),
        OptionName::At => saying("type --at"),
    }
}

fn distrib_line(fault: &DistribFault) -> Line
    ensures { result.bytes ≡ line_with (distrib_message fault.now) }
{
    match fault {
        DistribFault::ZeroMasks => saying("distrib ZeroMasks"),
        DistribFault::TooManyMasks => saying("distrib TooManyMasks"),
        DistribFault::Reversed => saying("distrib Reversed"),
        DistribFault::OutOfMemory => saying("out of memory"),
    }
}

fn plan_line(fault: &PlanFault) -> Line
    ensures { result.bytes ≡ line_with (plan_message fault.now) }
{
    match fault {
        PlanFault::LevelUnknown { place } => {
            saying_number("plan LevelUnknown", u64::from(*place))
        }
        PlanFault::TooDeep => saying("plan TooDeep"),
        PlanFault::LevelOrder { place } => saying_number("plan LevelOrder", u64::from(*place)),
        PlanFault::LockUnknown { place } => saying_number("plan LockUnknown", u64::from(*place)),
        PlanFault::Lengths { levels, given } => {
            saying_two("plan Lengths", u64::from(*levels), u64::from(*given))
        }
        PlanFault::KeepRange { place } => saying_number("plan KeepRange", u64::from(*place)),
        PlanFault::OutOfMemory => saying("out of memory"),
    }
}

// The line with this text.
fn saying(text: &str) -> Line
    requires { length text.now ≤ 32 }
    ensures { result.bytes ≡ line_with text.now }
{
    let mut line = begun(text);
    line.push_str("\n");
    line
}

// The line with this text and a number.
fn saying_number(text: &str, number: u64) -> Line
    requires { length text.now ≤ 32 }
    ensures { result.bytes ≡ line_with (with_number text.now number) }
{
    let mut line = begun(text);
    push_number(&mut line, number);
    line.push_str("\n");
    line
}

// The line with this text and two numbers.
fn saying_two(text: &str, first: u64, second: u64) -> Line
    requires { length text.now ≤ 32 }
    ensures { result.bytes ≡ line_with (with_number (with_number text.now first) second) }
{
    let mut line = begun(text);
    push_number(&mut line, first);
    push_number(&mut line, second);
    line.push_str("\n");
    line
}

// The line up to its numbers.
fn begun(text: &str) -> Line
    requires { length text.now ≤ 32 }
    ensures bytes { result.bytes ≡ codes "clof: " ++ text.now }
    ensures short { array_string_len result ≤ 38 }
{
    let mut line = Line::new();
    line.push_str("clof: ");
    line.push_str(text);
    line
}

// Appends a space and a number.
fn push_number(line: &mut Line, number: u64)
    requires { array_string_len line.old ≤ 70 }
    ensures bytes { line.new.bytes ≡ with_number line.old.bytes number }
    ensures short { array_string_len line.new ≤ array_string_len line.old + 21 }
{
    let mut buffer = Buffer::new();
    line.push_str(" ");
    line.push_str(buffer.format(number));
}
