//! What `distrib` prints.
ghost use Rattle.std.specs.Prelude.{◌≡◌, ◌<◌, ◌-◌, ◌++◌, ◌∷◌, [], ℕ, List, IfOk, IfErr, IfSome, IsOk, OnOk, MatchResult};
ghost use Rattle.std.specs.Prelude.{Result as PlainResult};
ghost use Rattle.out_of_memory.specs.Memory.{UnlessMemory};
ghost use Rattle.topo_tree.specs.Objects.{depth_count};
ghost use Rattle.command_texts.specs.declared.status.OptionName.{OptionName as AnyOption};
ghost use Rattle.command_texts.specs.declared.status.Status.{Status as AnyStatus};
ghost use Rattle.command_words.specs.Plain.{plain_text, plain_depths, plain_distribution};
ghost use Rattle.command_texts.specs.DistribText.{mask_line, mask_lines, option_depth, span_of, distrib_status, answer_on};
ghost use Rattle.command_texts.specs.DistribText.{PrintsDistrib, DistribRefuses};
ghost use Rattle.command_texts.specs.Ends.{EndsEarly};

use crate::chosen::chosen;
use crate::topology::tree;
use crate::{Fault, OptionName, Status};
use calc_text::set_text;
use command_words::{Depths, Distribution};
use cpu_set::CpuSet;
use distrib_rules::{DistribFault, distrib};
use out_of_memory::OutOfMemory;
use std::alloc::{AllocError, Global};
use topo_tree::Tree;

/// The masks that are asked for, one a line, or the status with which they are refused.
pub fn distrib_output(alloc: Global, asked: &Distribution<'_>) -> Result<Vec<u8>, Status>
    ensures ok { IfOk result (λ printed. PrintsDistrib (plain_distribution asked.now) printed.items) }
    ensures err { IfErr result (λ status. UnlessMemory Status.OutOfMemory status (DistribRefuses (plain_distribution asked.now) status)) }
    ensures refused { (status : AnyStatus) → DistribRefuses (plain_distribution asked.now) status →
        UnlessMemory (Err Status.OutOfMemory) result (result ≡ Err status) }
    ensures complete { (printed : List ℕ) → PrintsDistrib (plain_distribution asked.now) printed →
        UnlessMemory (Err Status.OutOfMemory) result (IsOk result) }
    ensures early { IfErr result EndsEarly }
{
    match tree(alloc, asked.description) {
        Ok(tree) => match answer_on(alloc, &tree, asked) {
            Ok(text) => Ok(text),
            Err(status) => Err(status),
        },
        Err(status) => Err(status),
    }
}

// The masks of a tree, one a line, or the status with which they are refused.
#[tactic(auto, unfolding(crate::specs::DistribText::answer_on))]
fn answer_on(alloc: Global, tree: &Tree, asked: &Distribution<'_>) -> Result<Vec<u8>, Status>
    ensures ok { IfOk result (λ printed. answer_on tree.now (plain_distribution asked.now) ≡ Ok printed.items) }
    ensures err { IfErr result (λ status. UnlessMemory Status.OutOfMemory status
        (answer_on tree.now (plain_distribution asked.now) ≡ Err status)) }
    ensures early { IfErr result EndsEarly }
{
    let (from, to) = span(tree, asked.depths)?;
    match distrib(alloc, tree, asked.masks, from, to, asked.reverse) {
        Ok(masks) => match lines(alloc, asked.single, asked.taskset, &masks) {
            Ok(text) => Ok(text),
            Err(OutOfMemory) => Err(Status::OutOfMemory),
        },
        Err(fault) => Err(distrib_status(fault)),
    }
}

// The depths of the start and the end.
fn span(tree: &Tree, depths: Depths<'_>) -> Result<(u32, u32), Status>
    ensures ok { IfOk result (λ span. span_of tree.now (plain_depths depths.entry) ≡ Ok (span.0, span.1)) }
    ensures err { IfErr result (λ status. span_of tree.now (plain_depths depths.entry) ≡ Err status) }
    ensures from { IfOk result (λ span. span.0 < depth_count tree.now) }
    ensures to { IfOk result (λ span. span.1 < depth_count tree.now) }
    ensures early { IfErr result EndsEarly }
{
    match depths {
        Depths::Between { from, to } => {
            let from = depth(tree, OptionName::From, 0, from)?;
            let to = depth(tree, OptionName::To, tree.depths() - 1, to)?;
            Ok((from, to))
        }
        Depths::At(name) => {
            let at = depth(tree, OptionName::At, 0, Some(name))?;
            Ok((at, at))
        }
    }
}

// The depth that an option names, where it was given.
fn depth(tree: &Tree, option: OptionName, default: u32, name: Option<&[u8]>) -> Result<u32, Status>
    requires { default < depth_count tree.now }
    ensures ok { IfOk result (λ depth. option_depth tree.now option default (plain_text name.entry) ≡ Ok depth) }
    ensures err { IfErr result (λ status. option_depth tree.now option default (plain_text name.entry) ≡ Err status) }
    ensures fit { IfOk result (λ depth. depth < depth_count tree.now) }
    ensures early { IfErr result EndsEarly }
{
    match name {
        None => Ok(default),
        Some(name) => match tree.depth_named(name) {
            Some(depth) => Ok(depth),
            None => Err(Status::Malformed(Fault::TypeOf(option))),
        },
    }
}

// The status of a fault: too many masks are over a limit.
fn distrib_status(fault: DistribFault) -> Status
    ensures status { result ≡ distrib_status fault }
    ensures early { EndsEarly result }
{
    match fault {
        DistribFault::TooManyMasks => Status::Limit(Fault::Distrib(fault)),
        DistribFault::OutOfMemory => Status::OutOfMemory,
        _ => Status::Malformed(Fault::Distrib(fault)),
    }
}

// Masks, one a line.
fn lines(
    alloc: Global,
    single: bool,
    taskset: bool,
    masks: &[CpuSet],
) -> Result<Vec<u8>, OutOfMemory>
    ensures { IfOk result (λ text. text.items ≡ mask_lines single taskset masks.now) }
{
    let mut text = Vec::new(alloc);
    for mask in masks {
        push_line(alloc, &mut text, single, taskset, mask)?;
    }
    Ok(text)
}

// Appends the line of a mask.
fn push_line(
    alloc: Global,
    text: &mut Vec<u8>,
    single: bool,
    taskset: bool,
    mask: &CpuSet,
) -> Result<(), OutOfMemory>
    ensures { OnOk result (text.new.items ≡ text.old.items ++ mask_line single taskset mask.now) }
{
    let line = set_text(alloc, taskset, &chosen(single, mask))?;
    text.extend_from_slice(&line)?;
    text.push(b'\n')?;
    Ok(())
}
