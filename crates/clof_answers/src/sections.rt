//! What an input's sections come to: the shape of a lock for their callers, and the status of their fault.
ghost use Rattle.std.specs.Prelude.{◌≡◌, ◌<◌, All, map, IfOk};
ghost use Rattle.synth_text.specs.Rules.{pu_count};
ghost use Rattle.lock_plan.specs.Laws.{IsTree};
ghost use Rattle.lock_plan.specs.Plans.{IsPlanFor};
ghost use Rattle.lock_plan.specs.Shapes.{IsShapeOf};
ghost use Rattle.command_texts.specs.Ends.{EndsEarly};
ghost use Rattle.clof_answers.specs.Run.{section_status};

use crate::{Fault, Status};
use keep_local::Shape;
use lock_plan::Plan;
use out_of_memory::OutOfMemory;
use placed_runner::{Section, SectionFault};
use std::alloc::{AllocError, Global};
use topo_tree::Tree;

/// The shape of a plan's lock, whose callers stand on the PUs of these sections.
pub fn shape_for(
    alloc: Global,
    tree: &Tree,
    plan: &Plan,
    sections: &[Section<'_>],
) -> Result<Shape, OutOfMemory>
    requires plan { IsPlanFor tree.now plan.now }
    requires pus { All (λ section. section.pu < pu_count tree.now) sections.now }
    ensures shape { IfOk result (IsShapeOf tree.now plan.now (map (λ section. section.pu) sections.now)) }
    ensures tree { IfOk result (IsTree plan.now (map (λ section. section.pu) sections.now)) }
{
    let pus = pus(alloc, sections)?;
    plan.shape(alloc, tree, &pus)
}

// The PUs of sections.
fn pus(alloc: Global, sections: &[Section<'_>]) -> Result<Vec<u32>, AllocError>
    ensures { IfOk result (λ pus. pus.items ≡ map (λ section. section.pu) sections.now) }
{
    let mut pus = Vec::with_capacity(alloc, sections.len())?;
    for section in sections {
        pus.push(section.pu)?;
    }
    Ok(pus)
}

/// The status of a fault of the sections: one of them is a limit.
pub fn section_status(fault: SectionFault) -> Status
    ensures status { result ≡ section_status fault }
    ensures early { EndsEarly result }
{
    match fault {
        SectionFault::TooManyCallers => Status::Limit(Fault::Section(fault)),
        SectionFault::OutOfMemory => Status::OutOfMemory,
        _ => Status::Malformed(Fault::Section(fault)),
    }
}
