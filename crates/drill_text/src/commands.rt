//! The sections of the drill's callers.
ghost use Rattle.std.specs.Prelude.{◌≡◌, ◌<◌, ◌≤◌, ◌^◌, ◌++◌, IfOk, OnOk, length, map, sum_by};
ghost use Rattle.std.specs.List.{flat_map};
ghost use Rattle.drill_text.specs.Drill.{addition, below, callers, drill_section, drill_sections, keys, of_caller, opening};

use crate::setup::{ADDITIONS, CALLERS, KEYS};
use byte_text::push_decimal;
use out_of_memory::OutOfMemory;
use std::alloc::{AllocError, Global};

// Room for the commands of a caller.
const ROOM: usize = 8 * 25 + 313 * 21;

/// The sections of the callers of a drill, by the callers' numbers.
pub fn sections(alloc: Global, drill: u32) -> Result<Vec<Vec<u8>>, OutOfMemory>
    ensures sections { IfOk result (λ sections. map (λ section. section.items) sections.items ≡ drill_sections drill) }

    // What a journal and a run need of their number and their bytes.
    ensures count { IfOk result (λ sections. length sections.items ≡ 64) }
    ensures small { IfOk result (λ sections. sum_by (λ section. length section.items) sections.items < 2 ^ 32) }
{
    let mut sections = Vec::with_capacity(alloc, CALLERS as usize)?;
    for caller in 0..CALLERS {
        sections.push(section(alloc, drill, caller)?)?;
    }
    Ok(sections)
}

// The section of a caller.
#[tactic(auto, unfolding(crate::specs::Drill::drill_section))]
fn section(alloc: Global, drill: u32, caller: u32) -> Result<Vec<u8>, OutOfMemory>
    requires { caller < 64 }
    ensures { IfOk result (λ section. section.items ≡ drill_section drill caller) }
{
    let mut section = Vec::with_capacity(alloc, ROOM)?;
    push_openings(&mut section)?;
    push_additions(&mut section, drill, caller)?;
    Ok(section)
}

// Appends the commands that store 0 under each key.
fn push_openings(section: &mut Vec<u8>) -> Result<(), AllocError>
    ensures { OnOk result (section.new.items ≡ section.old.items ++ flat_map opening (below keys)) }
{
    for key in 0..KEYS {
        push_opening(section, key)?;
    }
    Ok(())
}

// Appends the command that stores 0 under a key.
fn push_opening(section: &mut Vec<u8>, key: u32) -> Result<(), AllocError>
    ensures { OnOk result (section.new.items ≡ section.old.items ++ opening key) }
{
    section.extend_from_slice(b"add k")?;
    push_decimal(section, u64::from(key))?;
    section.extend_from_slice(b" 0 0 1 noreply\r\n0\r\n")
}

// Appends the commands of a caller's additions: every 64th, from the one with the caller's number on.
fn push_additions(section: &mut Vec<u8>, drill: u32, caller: u32) -> Result<(), AllocError>
    requires { caller < 64 }
    ensures { OnOk result (section.new.items ≡ section.old.items ++ flat_map (addition drill) (of_caller caller)) }
{
    let mut number = caller;
    while number < ADDITIONS {
        push_addition(section, drill, number)?;
        number += CALLERS;
    }
    Ok(())
}

// Appends the command of an addition.
#[tactic(auto, unfolding(crate::specs::Drill::addition))]
fn push_addition(section: &mut Vec<u8>, drill: u32, number: u32) -> Result<(), AllocError>
    ensures { OnOk result (section.new.items ≡ section.old.items ++ addition drill number) }
{
    let delta = (u64::from(number) + u64::from(drill)) % 1000;
    section.extend_from_slice(b"incr k")?;
    push_decimal(section, u64::from(number % KEYS))?;
    section.extend_from_slice(b" ")?;
    push_decimal(section, delta)?;
    section.extend_from_slice(b" noreply\r\n")
}
