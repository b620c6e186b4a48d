//! What `check` prints of all that the source has left.
ghost use Rattle.std.specs.Prelude.{◌≡◌, ◌≢◌, ◌≤◌, ◌⊎◌, ℕ, List, Some, length, IfErr, IfOk, IsOk, OnOk};
ghost use Rattle.out_of_memory.specs.Memory.{UnlessMemory};
ghost use Rattle.edge_io.specs.Counts.{Rose};
ghost use Rattle.edge_io.specs.Contents.{IsDrained};
ghost use Rattle.edge_io.specs.Reading.{HasGiven};
ghost use Rattle.lock_plan.specs.Plans.{IsPlanFor};
ghost use Rattle.command_words.specs.Asked.{Check, as_run};
ghost use Rattle.command_words.specs.Plain.{plain_checking};
ghost use Rattle.command_texts.specs.declared.status.Status.{Status as AnyStatus};
ghost use Rattle.command_texts.specs.Ends.{EndsEarly, IsRefusal, HasWritten};
ghost use Rattle.plan_texts.specs.RunPlan.{HasPlan, PlanOf, RefusesPlan};
ghost use Rattle.clof_answers.specs.Checking.{pair_limit, CheckRefuses, RefusesChecked, RefusesWhole, TellsChecked, TellsVerdict};
ghost use Rattle.clof_answers.specs.Outcome.{WasRead, FoundNoPair, FoundUnchecked};
ghost use Rattle.clof_answers.specs.Answered.{Answered, AnswersUnrefused};

use crate::Status;
use crate::judging::check_text;
use crate::reading::read_up_to;
use command_texts::topology::tree;
use command_words::Checking;
use edge_io::Source;
use lock_plan::Plan;
use plan_texts::read_plan;
use std::alloc::Global;
use topo_tree::Tree;

// The greatest length of an input, its head and the printed text behind it.
const PAIR_LIMIT: usize = 67_108_864;

/// What is said of the printed text that the source has left behind its input.
pub fn check_on<S: Source>(
    alloc: Global,
    asked: Checking<'_>,
    source: &mut S,
) -> Result<Vec<u8>, Status>
    ensures answered { Answered (Check (plain_checking asked.entry)) (S.left source.old) (S.left source.new)
        (S.given source.old) (S.given source.new) (S.faults source.old) (S.faults source.new) result }
    ensures complete { AnswersUnrefused (Check (plain_checking asked.entry)) (S.left source.old)
        (S.faults source.old) (S.faults source.new) result }
    ensures words_unread { (status : AnyStatus) → CheckRefuses (plain_checking asked.entry) status → source.new ≡ source.old }
{
    match tree(alloc, asked.description) {
        Ok(tree) => check_in(alloc, &tree, asked, source),
        Err(status) => Err(status),
    }
}

// The same on a topology.
fn check_in<S: Source>(
    alloc: Global,
    tree: &Tree,
    asked: Checking<'_>,
    source: &mut S,
) -> Result<Vec<u8>, Status>
    ensures answer { IfOk result (λ text. (bytes : List ℕ)
        × WasRead (S.left source.old) (S.given source.old) (S.given source.new) bytes
        × (length bytes ≤ pair_limit) × TellsChecked tree.now (plain_checking asked.entry) bytes text.items) }
    ensures at_end { OnOk result (IsDrained (S.left source.old) (S.left source.new)) }
    ensures cause { IfErr result (λ status. IsRefusal status → RefusesPlan tree.now (as_run (plain_checking asked.entry)) status
        ⊎ FoundUnchecked (plain_checking asked.entry) (S.left source.old) (S.given source.old) (S.given source.new) status tree.now) }
    ensures silent { IfErr result (λ status. HasWritten status → ⊥) }
    ensures not_usage { result ≢ Err Status.Usage }
    ensures read_fault { result ≡ Err Status.ReadFault → Rose (S.faults source.old) (S.faults source.new) }
    ensures read_in_part { result ≡ Err Status.ReadFault →
        HasGiven pair_limit (S.left source.old) (S.left source.new) (S.given source.old) (S.given source.new) }
    ensures read_calm { result ≢ Err Status.ReadFault → S.faults source.new ≡ S.faults source.old }
    ensures plan_refused { (status : AnyStatus) → RefusesPlan tree.now (as_run (plain_checking asked.entry)) status →
        UnlessMemory (Err Status.OutOfMemory) result (result ≡ Err status) }
    ensures plan_unread { (status : AnyStatus) → RefusesPlan tree.now (as_run (plain_checking asked.entry)) status →
        source.new ≡ source.old }
    ensures input_refused { (bytes : List ℕ) (status : AnyStatus) →
        S.left source.old ≡ Some bytes → RefusesChecked (plain_checking asked.entry) bytes status tree.now →
        (Rose (S.faults source.old) (S.faults source.new) → ⊥) → UnlessMemory (Err Status.OutOfMemory) result (result ≡ Err status) }
    ensures complete { (bytes : List ℕ) → S.left source.old ≡ Some bytes →
        ((status : AnyStatus) → RefusesPlan tree.now (as_run (plain_checking asked.entry)) status → ⊥) →
        ((status : AnyStatus) → RefusesChecked (plain_checking asked.entry) bytes status tree.now → ⊥) →
        (Rose (S.faults source.old) (S.faults source.new) → ⊥) → UnlessMemory (Err Status.OutOfMemory) result (IsOk result) }
{
    match plan_of(alloc, tree, asked) {
        Ok(plan) => checked(alloc, tree, &plan, source),
        Err(status) => Err(status),
    }
}

// The plan of the run that is asked about, or the status with which its texts are refused.
fn plan_of(alloc: Global, tree: &Tree, asked: Checking<'_>) -> Result<Plan, Status>
    ensures ok { IfOk result (PlanOf tree.now (as_run (plain_checking asked.entry))) }
    ensures usable { IfOk result (IsPlanFor tree.now) }
    ensures err { IfErr result (λ status. UnlessMemory Status.OutOfMemory status
        (RefusesPlan tree.now (as_run (plain_checking asked.entry)) status)) }
    ensures refused { (status : AnyStatus) → RefusesPlan tree.now (as_run (plain_checking asked.entry)) status →
        UnlessMemory (Err Status.OutOfMemory) result (result ≡ Err status) }
    ensures complete { HasPlan tree.now (as_run (plain_checking asked.entry)) → UnlessMemory (Err Status.OutOfMemory) result (IsOk result) }
    ensures early { IfErr result EndsEarly }
{
    read_plan(alloc, tree, asked.as_run())
}

// The same under the lock of a plan.
fn checked<S: Source>(
    alloc: Global,
    tree: &Tree,
    plan: &Plan,
    source: &mut S,
) -> Result<Vec<u8>, Status>
    requires plan { IsPlanFor tree.now plan.now }
    ensures answer { IfOk result (λ text. (bytes : List ℕ)
        × WasRead (S.left source.old) (S.given source.old) (S.given source.new) bytes
        × (length bytes ≤ pair_limit) × TellsVerdict tree.now plan.now bytes text.items) }
    ensures at_end { OnOk result (IsDrained (S.left source.old) (S.left source.new)) }
    ensures cause { IfErr result (λ status. IsRefusal status →
        FoundNoPair (S.left source.old) (S.given source.old) (S.given source.new) status tree.now) }
    ensures silent { IfErr result (λ status. HasWritten status → ⊥) }
    ensures not_usage { result ≢ Err Status.Usage }
    ensures read_fault { result ≡ Err Status.ReadFault → Rose (S.faults source.old) (S.faults source.new) }
    ensures read_in_part { result ≡ Err Status.ReadFault →
        HasGiven pair_limit (S.left source.old) (S.left source.new) (S.given source.old) (S.given source.new) }
    ensures read_calm { result ≢ Err Status.ReadFault → S.faults source.new ≡ S.faults source.old }
    ensures input_refused { (bytes : List ℕ) (status : AnyStatus) →
        S.left source.old ≡ Some bytes → RefusesWhole tree.now bytes status →
        (Rose (S.faults source.old) (S.faults source.new) → ⊥) → UnlessMemory (Err Status.OutOfMemory) result (result ≡ Err status) }
    ensures complete { (bytes : List ℕ) →
        S.left source.old ≡ Some bytes → ((status : AnyStatus) → RefusesWhole tree.now bytes status → ⊥) →
        (Rose (S.faults source.old) (S.faults source.new) → ⊥) → UnlessMemory (Err Status.OutOfMemory) result (IsOk result) }
{
    match read_up_to(alloc, source, PAIR_LIMIT) {
        Ok(bytes) => check_text(alloc, tree, plan, &bytes),
        Err(status) => Err(status),
    }
}
