//! What `run` prints of all that the source has left.
ghost use Rattle.std.specs.Prelude.{◌≡◌, ◌≢◌, ◌≤◌, ◌⊎◌, ℕ, List, Some, length, IfErr, IfOk, IsOk, OnOk};
ghost use Rattle.out_of_memory.specs.Memory.{UnlessMemory};
ghost use Rattle.edge_io.specs.Counts.{Rose};
ghost use Rattle.edge_io.specs.Contents.{IsDrained};
ghost use Rattle.edge_io.specs.Reading.{HasGiven};
ghost use Rattle.lock_plan.specs.Plans.{IsPlanFor};
ghost use Rattle.command_words.specs.Asked.{Run};
ghost use Rattle.command_words.specs.Plain.{plain_running};
ghost use Rattle.command_texts.specs.declared.status.Status.{Status as AnyStatus};
ghost use Rattle.command_texts.specs.Ends.{IsRefusal, HasWritten};
ghost use Rattle.plan_texts.specs.RunPlan.{RefusesPlan};
ghost use Rattle.run_check.specs.Pairs.{input_limit};
ghost use Rattle.clof_answers.specs.Run.{PrintsSections, PrintsUnder, Refuses, RefusesPlanned, RunRefuses};
ghost use Rattle.clof_answers.specs.Outcome.{WasRead, Found, FoundPlanned};
ghost use Rattle.clof_answers.specs.Answered.{Answered, AnswersUnrefused};

use crate::Status;
use crate::running::run_text;
use clof_answers::read_input;
use command_texts::topology::tree;
use command_words::Running;
use edge_io::Source;
use lock_plan::Plan;
use placed_runner::Gate;
use plan_texts::read_plan;
use std::alloc::Global;
use std::sync::Wait;
use std::thread::Threads;
use topo_tree::Tree;

/// The text of the run that is asked for, of all that the source has left.
pub(crate) fn run_on<R: Threads + Wait + Sync, S: Source, G: Gate + Sync>(
    rt: &R,
    alloc: Global,
    asked: Running<'_>,
    source: &mut S,
    gate: &G,
) -> Result<Vec<u8>, Status>
    ensures answered { Answered (Run (plain_running asked.entry)) (S.left source.old) (S.left source.new)
        (S.given source.old) (S.given source.new) (S.faults source.old) (S.faults source.new) result }
    ensures complete { AnswersUnrefused (Run (plain_running asked.entry)) (S.left source.old)
        (S.faults source.old) (S.faults source.new) result }
    ensures words_unread { (status : AnyStatus) → RunRefuses (plain_running asked.entry) status → source.new ≡ source.old }
{
    match tree(alloc, asked.description) {
        Ok(tree) => run_in(rt, alloc, &tree, asked, source, gate),
        Err(status) => Err(status),
    }
}

// The text of a run on a topology.
fn run_in<R: Threads + Wait + Sync, S: Source, G: Gate + Sync>(
    rt: &R,
    alloc: Global,
    tree: &Tree,
    asked: Running<'_>,
    source: &mut S,
    gate: &G,
) -> Result<Vec<u8>, Status>
    ensures answer { IfOk result (λ printed. (input : List ℕ)
        × WasRead (S.left source.old) (S.given source.old) (S.given source.new) input
        × (length input ≤ input_limit) × PrintsSections tree.now (plain_running asked.entry) input printed.items) }
    ensures at_end { OnOk result (IsDrained (S.left source.old) (S.left source.new)) }
    ensures cause { IfErr result (λ status. IsRefusal status → RefusesPlan tree.now (plain_running asked.entry) status
        ⊎ FoundPlanned (plain_running asked.entry) (S.left source.old) (S.given source.old) (S.given source.new) status tree.now) }
    ensures silent { IfErr result (λ status. HasWritten status → ⊥) }
    ensures not_usage { result ≢ Err Status.Usage }
    ensures read_fault { result ≡ Err Status.ReadFault → Rose (S.faults source.old) (S.faults source.new) }
    ensures read_in_part { result ≡ Err Status.ReadFault →
        HasGiven input_limit (S.left source.old) (S.left source.new) (S.given source.old) (S.given source.new) }
    ensures read_calm { result ≢ Err Status.ReadFault → S.faults source.new ≡ S.faults source.old }
    ensures plan_refused { (status : AnyStatus) → RefusesPlan tree.now (plain_running asked.entry) status →
        UnlessMemory (Err Status.OutOfMemory) result (result ≡ Err status) }
    ensures plan_unread { (status : AnyStatus) → RefusesPlan tree.now (plain_running asked.entry) status →
        source.new ≡ source.old }
    ensures input_refused { (input : List ℕ) (status : AnyStatus) →
        S.left source.old ≡ Some input → RefusesPlanned (plain_running asked.entry) input status tree.now →
        (Rose (S.faults source.old) (S.faults source.new) → ⊥) → UnlessMemory (Err Status.OutOfMemory) result (result ≡ Err status) }
    ensures complete { (input : List ℕ) → S.left source.old ≡ Some input →
        ((status : AnyStatus) → RefusesPlan tree.now (plain_running asked.entry) status → ⊥) →
        ((status : AnyStatus) → RefusesPlanned (plain_running asked.entry) input status tree.now → ⊥) →
        (Rose (S.faults source.old) (S.faults source.new) → ⊥) → UnlessMemory (Err Status.OutOfMemory) result (IsOk result) }
{
    match read_plan(alloc, tree, asked) {
        Ok(plan) => served(rt, alloc, tree, &plan, asked, source, gate),
        Err(status) => Err(status),
    }
}

// The text of a run under the lock of a plan.
fn served<R: Threads + Wait + Sync, S: Source, G: Gate + Sync>(
    rt: &R,
    alloc: Global,
    tree: &Tree,
    plan: &Plan,
    asked: Running<'_>,
    source: &mut S,
    gate: &G,
) -> Result<Vec<u8>, Status>
    requires plan { IsPlanFor tree.now plan.now }
    ensures answer { IfOk result (λ printed. (input : List ℕ)
        × WasRead (S.left source.old) (S.given source.old) (S.given source.new) input
        × (length input ≤ input_limit) × PrintsUnder asked.entry.receipts tree.now plan.now input printed.items) }
    ensures at_end { OnOk result (IsDrained (S.left source.old) (S.left source.new)) }
    ensures cause { IfErr result (λ status. IsRefusal status →
        Found (S.left source.old) (S.given source.old) (S.given source.new) status tree.now) }
    ensures silent { IfErr result (λ status. HasWritten status → ⊥) }
    ensures not_usage { result ≢ Err Status.Usage }
    ensures read_fault { result ≡ Err Status.ReadFault → Rose (S.faults source.old) (S.faults source.new) }
    ensures read_in_part { result ≡ Err Status.ReadFault →
        HasGiven input_limit (S.left source.old) (S.left source.new) (S.given source.old) (S.given source.new) }
    ensures read_calm { result ≢ Err Status.ReadFault → S.faults source.new ≡ S.faults source.old }
    ensures input_refused { (input : List ℕ) (status : AnyStatus) →
        S.left source.old ≡ Some input → Refuses tree.now input status →
        (Rose (S.faults source.old) (S.faults source.new) → ⊥) → UnlessMemory (Err Status.OutOfMemory) result (result ≡ Err status) }
    ensures complete { (input : List ℕ) →
        S.left source.old ≡ Some input → ((status : AnyStatus) → Refuses tree.now input status → ⊥) →
        (Rose (S.faults source.old) (S.faults source.new) → ⊥) → UnlessMemory (Err Status.OutOfMemory) result (IsOk result) }
{
    match read_input(alloc, source) {
        Ok(input) => run_text(rt, alloc, tree, plan, &input, asked, gate),
        Err(status) => Err(status),
    }
}
