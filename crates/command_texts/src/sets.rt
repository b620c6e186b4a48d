//! What `set` prints.
ghost use Rattle.std.specs.Prelude.{◌≡◌, ◌++◌, ◌∷◌, [], IfErr, IfOk, IsOk, OnOk};
ghost use Rattle.out_of_memory.specs.Memory.{UnlessMemory};
ghost use Rattle.cpu_set.specs.declared.fault.SetFault.{SetFault as AnySetFault};
ghost use Rattle.command_texts.specs.declared.status.Fault.TheVariants.{Set as SetOf};
ghost use Rattle.command_texts.specs.SetText.{set_lines, ReadsSet, SetRefused, PrintsSet};

use crate::{Fault, Status};
use cpu_set::{CpuSet, SetFault};
use out_of_memory::OutOfMemory;
use std::alloc::Global;

/// The three lines of the set that a text tells, in hexadecimal or as a list, or the status with which it is refused.
pub fn set_output(alloc: Global, list: bool, text: &[u8]) -> Result<Vec<u8>, Status>
    ensures ok { IfOk result (λ printed. PrintsSet list text.now printed.items) }
    ensures err { IfErr result (λ status. UnlessMemory Status.OutOfMemory status
        ((fault : AnySetFault) × (status ≡ Status.Malformed (SetOf fault)) × SetRefused list text.now fault)) }
{
    let set = read_set(list, text).map_err(|fault| Status::Malformed(Fault::Set(fault)))?;
    lines(alloc, &set).map_err(|_| Status::OutOfMemory)
}

// The set that a text tells.
fn read_set(list: bool, text: &[u8]) -> Result<CpuSet, SetFault>
    ensures set { IfOk result (ReadsSet list text.now) }
    ensures fault { IfErr result (SetRefused list text.now) }
{
    if list {
        CpuSet::read_list(text)
    } else {
        CpuSet::read_hex(text)
    }
}

// A set in its three texts, a line each.
fn lines(alloc: Global, set: &CpuSet) -> Result<Vec<u8>, OutOfMemory>
    ensures { IfOk result (λ text. text.items ≡ set_lines set.now) }
{
    let mut text = set.write_hex(alloc)?;
    text.push(b'\n')?;
    text.extend_from_slice(&set.write_list(alloc)?)?;
    text.push(b'\n')?;
    text.extend_from_slice(&set.write_taskset(alloc)?)?;
    text.push(b'\n')?;
    Ok(text)
}
