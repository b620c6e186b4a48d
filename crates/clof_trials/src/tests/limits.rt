//! The limits of sections, of an input, of keys and of values, and many commands and keys.
use super::{WELL, ends, prints_last};
use clof_tool::Fault::{Input, Section};
use clof_tool::Status::Limit;
use placed_runner::SectionFault::TooManyCallers;
use std::alloc::Global;
use std::test::Fail;

#[test]
fn limits_the_sections(rt: HostRuntime) -> Result<(), Fail> {
    let input = "worker * 0\n\n".repeat(rt.alloc(), 257)?;
    let status = Some(Limit(Section(TooManyCallers)));
    let ending = (status, 4, "clof: section TooManyCallers\n");
    ends(&rt, rt.alloc(), ("run", input.as_bytes()), ending, "")
}

// The lengths of a key and of its value, and what is printed last.
const LENGTHS: &[(usize, usize, &str)] = &[
    (
        250,
        1_048_576,
        "\" \"STORED\\r\\n\"\ncaller 0 pu 0 commands 1 rest 0\n",
    ),
    (
        251,
        1_048_576,
        "\" \"ERROR\\r\\n\"\ncaller 0 pu 0 commands 2 rest 0\n",
    ),
    (
        250,
        1_048_577,
        "\" \"SERVER_ERROR object too large for cache\\r\\n\"\ncaller 0 pu 0 commands 1 rest 0\n",
    ),
];

// An input with one section.
fn input_of(alloc: Global, section: &str) -> Result<String, Fail> {
    Ok(format!(in alloc; "worker * {}\n{section}\n", section.len())?)
}

// The section that sets a key of this length to a value of that length.
fn long_set(alloc: Global, key: usize, value: usize) -> Result<String, Fail> {
    let name = "k".repeat(alloc, key)?;
    let bytes = "v".repeat(alloc, value)?;
    Ok(format!(in alloc; "set {name} 0 0 {value}\r\n{bytes}\r\n")?)
}

#[test]
fn takes_values_and_keys_up_to_their_limits(rt: HostRuntime) -> Result<(), Fail> {
    for row in LENGTHS {
        let (key, value, end) = *row;
        let input = input_of(rt.alloc(), &long_set(rt.alloc(), key, value)?)?;
        prints_last(&rt, rt.alloc(), input.as_bytes(), end)?;
    }
    let input = b"worker * 25\nset k 0 0 4294967295\r\nx\r\n\n";
    let text = "caller 0 pu 0 commands 0 rest 25\n";
    ends(&rt, rt.alloc(), ("run", input), WELL, text)
}

// The section that stores 2,000 keys, asks for each by itself, and then for all in one line.
fn many_commands(alloc: Global) -> Result<String, Fail> {
    let (mut section, mut last) = (String::new(alloc), String::new(alloc));
    for number in 1_000..3_000 {
        push_set(&mut section, alloc, number)?;
        push_key(&mut last, alloc, number)?;
    }
    Ok(format!(in alloc; "{section}get{last}\r\n")?)
}

fn push_set(section: &mut String, alloc: Global, number: u32) -> Result<(), Fail> {
    let commands = format!(in alloc; "set k{number} 0 0 1\r\nx\r\nget k{number}\r\n")?;
    section.push_str(&commands)?;
    Ok(())
}

fn push_key(line: &mut String, alloc: Global, number: u32) -> Result<(), Fail> {
    line.push_str(&format!(in alloc; " k{number}")?)?;
    Ok(())
}

// Many commands are no excuse, nor are many keys.
#[test]
fn serves_many_commands_and_keys(rt: HostRuntime) -> Result<(), Fail> {
    let input = input_of(rt.alloc(), &many_commands(rt.alloc())?)?;
    let end = "VALUE k2999 0 1\\r\\nx\\r\\nEND\\r\\n\"\ncaller 0 pu 0 commands 4001 rest 0\n";
    prints_last(&rt, rt.alloc(), input.as_bytes(), end)
}

// An input with one section of so many bytes, which are no command; its length is told in ten digits.
fn long_input(alloc: Global, length: usize) -> Result<Vec<u8>, Fail> {
    let head = format!(in alloc; "worker * 00{length}\n")?;
    let mut input = head.as_bytes().to_vec(alloc)?;
    input.extend_from_slice(&vec![in alloc; b'a'; length]?)?;
    input.push(b'\n')?;
    Ok(input)
}

#[test]
fn takes_an_input_up_to_its_limit(rt: HostRuntime) -> Result<(), Fail> {
    let input = long_input(rt.alloc(), 16_777_195)?;
    let text = "caller 0 pu 0 commands 0 rest 16777195\n";
    ends(&rt, rt.alloc(), ("run", &input), WELL, text)?;
    let input = long_input(rt.alloc(), 16_777_196)?;
    let ending = (Some(Limit(Input)), 4, "clof: input\n");
    ends(&rt, rt.alloc(), ("run", &input), ending, "")
}
