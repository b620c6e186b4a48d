//! What `select` prints.
ghost use Rattle.std.specs.Prelude.{◌≡◌, ◌≢◌, ◌≤◌, ◌⊎◌, ℕ, List, Some, length, IfErr, IfOk, IsOk, OnOk};
ghost use Rattle.out_of_memory.specs.Memory.{UnlessMemory};
ghost use Rattle.edge_io.specs.Counts.{Rose};
ghost use Rattle.edge_io.specs.Contents.{IsDrained};
ghost use Rattle.edge_io.specs.Reading.{HasGiven};
ghost use Rattle.lock_select.specs.Texts.{keep_limit, Weighs};
ghost use Rattle.command_words.specs.Asked.{Select};
ghost use Rattle.command_words.specs.Plain.{plain_selection};
ghost use Rattle.command_texts.specs.declared.status.Status.{Status as AnyStatus};
ghost use Rattle.command_texts.specs.Ends.{IsRefusal, HasWritten};
ghost use Rattle.plan_texts.specs.SelectText.{RefusesCriteria, PrintsChoice, PrintsSelection};
ghost use Rattle.run_check.specs.Pairs.{input_limit};
ghost use Rattle.clof_answers.specs.Selecting.{SelectRefuses, RefusesBytes, RefusesInput};
ghost use Rattle.clof_answers.specs.Outcome.{WasRead, FoundNoTrace, FoundRefused};
ghost use Rattle.clof_answers.specs.Answered.{Answered, AnswersUnrefused};

use crate::Status;
use crate::reading::read_input;
use command_texts::topology::tree;
use command_words::Selection;
use edge_io::Source;
use plan_texts::{Criteria, read_criteria, selection_text};
use std::alloc::Global;
use topo_tree::Tree;

/// The text of the levels that are chosen for the trace that the source has left.
pub fn select_on<S: Source>(
    alloc: Global,
    asked: &Selection<'_>,
    source: &mut S,
) -> Result<Vec<u8>, Status>
    ensures answered { Answered (Select (plain_selection asked.now)) (S.left source.old) (S.left source.new)
        (S.given source.old) (S.given source.new) (S.faults source.old) (S.faults source.new) result }
    ensures complete { AnswersUnrefused (Select (plain_selection asked.now)) (S.left source.old)
        (S.faults source.old) (S.faults source.new) result }
    ensures words_unread { (status : AnyStatus) → SelectRefuses (plain_selection asked.now) status → source.new ≡ source.old }
{
    match tree(alloc, asked.description) {
        Ok(tree) => select_in(alloc, &tree, asked, source),
        Err(status) => Err(status),
    }
}

// The text of the levels that are chosen on a topology.
fn select_in<S: Source>(
    alloc: Global,
    tree: &Tree,
    asked: &Selection<'_>,
    source: &mut S,
) -> Result<Vec<u8>, Status>
    ensures answer { IfOk result (λ printed. (input : List ℕ)
        × WasRead (S.left source.old) (S.given source.old) (S.given source.new) input
        × (length input ≤ input_limit) × PrintsSelection tree.now (plain_selection asked.now) input printed.items) }
    ensures at_end { OnOk result (IsDrained (S.left source.old) (S.left source.new)) }
    ensures cause { IfErr result (λ status. IsRefusal status → RefusesCriteria tree.now (plain_selection asked.now) status
        ⊎ FoundRefused (plain_selection asked.now) (S.left source.old) (S.given source.old) (S.given source.new) status tree.now) }
    ensures silent { IfErr result (λ status. HasWritten status → ⊥) }
    ensures not_usage { result ≢ Err Status.Usage }
    ensures read_fault { result ≡ Err Status.ReadFault → Rose (S.faults source.old) (S.faults source.new) }
    ensures read_in_part { result ≡ Err Status.ReadFault →
        HasGiven input_limit (S.left source.old) (S.left source.new) (S.given source.old) (S.given source.new) }
    ensures read_calm { result ≢ Err Status.ReadFault → S.faults source.new ≡ S.faults source.old }
    ensures criteria_refused { (status : AnyStatus) → RefusesCriteria tree.now (plain_selection asked.now) status →
        UnlessMemory (Err Status.OutOfMemory) result (result ≡ Err status) }
    ensures criteria_unread { (status : AnyStatus) → RefusesCriteria tree.now (plain_selection asked.now) status →
        source.new ≡ source.old }
    ensures input_refused { (input : List ℕ) (status : AnyStatus) →
        S.left source.old ≡ Some input → RefusesInput (plain_selection asked.now) input status tree.now →
        (Rose (S.faults source.old) (S.faults source.new) → ⊥) → UnlessMemory (Err Status.OutOfMemory) result (result ≡ Err status) }
    ensures complete { (input : List ℕ) → S.left source.old ≡ Some input →
        ((status : AnyStatus) → RefusesCriteria tree.now (plain_selection asked.now) status → ⊥) →
        ((status : AnyStatus) → RefusesInput (plain_selection asked.now) input status tree.now → ⊥) →
        (Rose (S.faults source.old) (S.faults source.new) → ⊥) → UnlessMemory (Err Status.OutOfMemory) result (IsOk result) }
{
    match read_criteria(alloc, tree, asked) {
        Ok(criteria) => selected(alloc, tree, &criteria, source),
        Err(status) => Err(status),
    }
}

// The text of the levels that are chosen by good weights and a good keep.
fn selected<S: Source>(
    alloc: Global,
    tree: &Tree,
    criteria: &Criteria,
    source: &mut S,
) -> Result<Vec<u8>, Status>
    requires weights { Weighs tree.now criteria.now.weights.items }
    requires keep { criteria.now.keep ≤ keep_limit }
    ensures answer { IfOk result (λ printed. (input : List ℕ)
        × WasRead (S.left source.old) (S.given source.old) (S.given source.new) input
        × (length input ≤ input_limit) × PrintsChoice tree.now criteria.now.weights.items criteria.now.keep input printed.items) }
    ensures at_end { OnOk result (IsDrained (S.left source.old) (S.left source.new)) }
    ensures cause { IfErr result (λ status. IsRefusal status →
        FoundNoTrace (S.left source.old) (S.given source.old) (S.given source.new) status tree.now) }
    ensures silent { IfErr result (λ status. HasWritten status → ⊥) }
    ensures not_usage { result ≢ Err Status.Usage }
    ensures read_fault { result ≡ Err Status.ReadFault → Rose (S.faults source.old) (S.faults source.new) }
    ensures read_in_part { result ≡ Err Status.ReadFault →
        HasGiven input_limit (S.left source.old) (S.left source.new) (S.given source.old) (S.given source.new) }
    ensures read_calm { result ≢ Err Status.ReadFault → S.faults source.new ≡ S.faults source.old }
    ensures input_refused { (input : List ℕ) (status : AnyStatus) →
        S.left source.old ≡ Some input → RefusesBytes tree.now input status →
        (Rose (S.faults source.old) (S.faults source.new) → ⊥) → UnlessMemory (Err Status.OutOfMemory) result (result ≡ Err status) }
    ensures complete { (input : List ℕ) →
        S.left source.old ≡ Some input → ((status : AnyStatus) → RefusesBytes tree.now input status → ⊥) →
        (Rose (S.faults source.old) (S.faults source.new) → ⊥) → UnlessMemory (Err Status.OutOfMemory) result (IsOk result) }
{
    match read_input(alloc, source) {
        Ok(input) => selection_text(alloc, tree, criteria, &input),
        Err(status) => Err(status),
    }
}
