//! The machine of a drill, and the plan of its lock.
ghost use Rattle.std.specs.Prelude.{◌≡◌, IfOk};
ghost use Rattle.lock_plan.specs.Plans.{IsPlanFor};
ghost use Rattle.clof_answers.specs.Drilling.{drilled_machine};

use crate::Status;
use command_texts::topology::tree;
use drill_text::{KEEPS, LEVELS, LOCKS, MACHINE};
use lock_plan::Plan;
use out_of_memory::OutOfMemory;
use run_faults::PlanFault;
use std::alloc::Global;
use topo_tree::Tree;

/// The machine of a drill.
pub fn machine(alloc: Global) -> Result<Tree, OutOfMemory>
    ensures { IfOk result (λ tree. tree ≡ drilled_machine) }
{
    match tree(alloc, MACHINE) {
        Ok(tree) => Ok(tree),
        Err(status) => Err(only_memory(status)),
    }
}

// The one status with which the description is refused: it describes a machine that is built.
fn only_memory(_status: Status) -> OutOfMemory
    requires { _status ≡ Status.OutOfMemory }
{
    OutOfMemory
}

/// The plan of a drill's lock.
pub fn plan_on(alloc: Global, tree: &Tree) -> Result<Plan, OutOfMemory>
    requires { tree.now ≡ drilled_machine }
    ensures { IfOk result (IsPlanFor tree.now) }
{
    match Plan::read(alloc, tree, LEVELS, Some(LOCKS), KEEPS) {
        Ok(plan) => Ok(plan),
        Err(fault) => Err(only_memory_for_plan(fault)),
    }
}

// The one fault with which the plan is refused: its texts break no rule.
fn only_memory_for_plan(_fault: PlanFault) -> OutOfMemory
    requires { _fault ≡ PlanFault.OutOfMemory }
{
    OutOfMemory
}
