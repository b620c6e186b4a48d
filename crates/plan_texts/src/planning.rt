//! The plan of the lock of a run.
ghost use Rattle.std.specs.Prelude.{◌≡◌, IfOk, IfErr, IsOk};
ghost use Rattle.out_of_memory.specs.Memory.{UnlessMemory};
ghost use Rattle.lock_plan.specs.Plans.{IsPlanFor};
ghost use Rattle.command_words.specs.Plain.{plain_running};
ghost use Rattle.command_texts.specs.declared.status.Status.{Status as AnyStatus};
ghost use Rattle.plan_texts.specs.RunPlan.{plan_status, PlanOf, HasPlan, RefusesPlan};
ghost use Rattle.command_texts.specs.Ends.{EndsEarly};

use command_texts::{Fault, Status};
use command_words::Running;
use lock_plan::Plan;
use run_faults::PlanFault;
use std::alloc::Global;
use topo_tree::Tree;

/// The plan that is asked for on a topology, or the status with which its texts are refused for the first rule that they break.
pub fn read_plan(alloc: Global, tree: &Tree, asked: Running<'_>) -> Result<Plan, Status>
    ensures ok { IfOk result (PlanOf tree.now (plain_running asked.entry)) }
    ensures usable { IfOk result (IsPlanFor tree.now) }
    ensures err { IfErr result (λ status. UnlessMemory Status.OutOfMemory status
        (RefusesPlan tree.now (plain_running asked.entry) status)) }
    ensures refused { (status : AnyStatus) → RefusesPlan tree.now (plain_running asked.entry) status →
        UnlessMemory (Err Status.OutOfMemory) result (result ≡ Err status) }
    ensures complete { HasPlan tree.now (plain_running asked.entry) → UnlessMemory (Err Status.OutOfMemory) result (IsOk result) }
    ensures early { IfErr result EndsEarly }
{
    match Plan::read(alloc, tree, asked.levels, asked.locks, asked.keep) {
        Ok(plan) => Ok(plan),
        Err(fault) => Err(plan_status(fault)),
    }
}

// The status of a fault.
fn plan_status(fault: PlanFault) -> Status
    ensures status { result ≡ plan_status fault }
    ensures early { EndsEarly result }
{
    match fault {
        PlanFault::OutOfMemory => Status::OutOfMemory,
        _ => Status::Malformed(Fault::Plan(fault)),
    }
}
