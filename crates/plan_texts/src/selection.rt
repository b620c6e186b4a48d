//! What `select` prints.
ghost use Rattle.std.specs.Prelude.{◌≡◌, ◌≤◌, ◌<◌, ◌++◌, ◌∷◌, [], ℕ, List, All, IfOk, IfErr, IsOk, OnOk};
ghost use Rattle.std.specs.List.{join_by};
ghost use Rattle.out_of_memory.specs.Memory.{UnlessMemory};
ghost use Rattle.topo_tree.specs.declared.layer.Layer.TheVariants as layers;
ghost use Rattle.topo_tree.specs.Objects.{depth_count};
ghost use Rattle.calc_text.specs.Texts.{gap, layer_name, long_name};
ghost use Rattle.lock_select.specs.Texts.{keep_limit, Weighs};
ghost use Rattle.lock_select.specs.Traces.{IsTrace};
ghost use Rattle.command_words.specs.Plain.{plain_selection};
ghost use Rattle.command_texts.specs.declared.status.Status.{Status as AnyStatus};
ghost use Rattle.plan_texts.specs.SelectText.{select_status, choice_text};
ghost use Rattle.plan_texts.specs.SelectText.{AreCriteria, HasCriteria, RefusesCriteria, RefusesTrace, PrintsChoice};
ghost use Rattle.command_texts.specs.Ends.{EndsEarly};

use byte_text::push_decimal;
use command_texts::{Fault, Status};
use command_words::Selection;
use lock_select::{Choice, choose, read_keep, read_trace, read_weights};
use out_of_memory::OutOfMemory;
use run_faults::SelectFault;
use std::alloc::{AllocError, Global};
use synth_text::Kind;
use topo_tree::Tree;

/// The criteria of a choice: the weights of the depths, and how often a level keeps the lock.
#[derive(Drop)]
pub struct Criteria {
    /// The weights, Machine's first.
    pub weights: Vec<u64>,
    /// How often a level keeps the lock.
    pub keep: u32,
}

/// The weights and the keep that are asked for, or the status with which they are refused: the weights come before the keep.
pub fn read_criteria(alloc: Global, tree: &Tree, asked: &Selection<'_>) -> Result<Criteria, Status>
    ensures ok { IfOk result (λ criteria. AreCriteria tree.now (plain_selection asked.now) criteria.weights.items criteria.keep) }
    ensures weights { IfOk result (λ criteria. Weighs tree.now criteria.weights.items) }
    ensures keep { IfOk result (λ criteria. criteria.keep ≤ keep_limit) }
    ensures err { IfErr result (λ status. UnlessMemory Status.OutOfMemory status
        (RefusesCriteria tree.now (plain_selection asked.now) status)) }
    ensures refused { (status : AnyStatus) → RefusesCriteria tree.now (plain_selection asked.now) status →
        UnlessMemory (Err Status.OutOfMemory) result (result ≡ Err status) }
    ensures complete { HasCriteria tree.now (plain_selection asked.now) → UnlessMemory (Err Status.OutOfMemory) result (IsOk result) }
    ensures early { IfErr result EndsEarly }
{
    let weights = match read_weights(alloc, tree, asked.weights) {
        Ok(weights) => weights,
        Err(fault) => return Err(select_status(fault)),
    };
    match read_keep(asked.keep) {
        Ok(keep) => Ok(Criteria { weights, keep }),
        Err(fault) => Err(select_status(fault)),
    }
}

/// The text of the cheapest levels for the trace that bytes hold, or the status with which the bytes are refused.
pub fn selection_text(
    alloc: Global,
    tree: &Tree,
    criteria: &Criteria,
    bytes: &[u8],
) -> Result<Vec<u8>, Status>
    requires weights { Weighs tree.now criteria.now.weights.items }
    requires keep { criteria.now.keep ≤ keep_limit }
    ensures ok { IfOk result (λ printed. PrintsChoice tree.now criteria.now.weights.items criteria.now.keep bytes.now printed.items) }
    ensures err { IfErr result (λ status. UnlessMemory Status.OutOfMemory status (RefusesTrace tree.now bytes.now status)) }
    ensures refused { (status : AnyStatus) → RefusesTrace tree.now bytes.now status →
        UnlessMemory (Err Status.OutOfMemory) result (result ≡ Err status) }
    ensures complete { (trace : List ℕ) → IsTrace tree.now bytes.now trace → UnlessMemory (Err Status.OutOfMemory) result (IsOk result) }
    ensures early { IfErr result EndsEarly }
{
    let trace = match read_trace(alloc, tree, bytes) {
        Ok(trace) => trace,
        Err(fault) => return Err(select_status(fault)),
    };
    let choice = match choose(alloc, tree, &criteria.weights, criteria.keep, &trace) {
        Ok(choice) => choice,
        Err(OutOfMemory) => return Err(Status::OutOfMemory),
    };
    match choice_text(alloc, tree, &choice, trace.len()) {
        Ok(text) => Ok(text),
        Err(OutOfMemory) => Err(Status::OutOfMemory),
    }
}

// The status of a fault: too many turns are over a limit.
fn select_status(fault: SelectFault) -> Status
    ensures status { result ≡ select_status fault }
    ensures early { EndsEarly result }
{
    match fault {
        SelectFault::TooManyTurns => Status::Limit(Fault::Select(fault)),
        SelectFault::OutOfMemory => Status::OutOfMemory,
        _ => Status::Malformed(Fault::Select(fault)),
    }
}

// The lines of a choice.
fn choice_text(
    alloc: Global,
    tree: &Tree,
    choice: &Choice,
    turns: usize,
) -> Result<Vec<u8>, OutOfMemory>
    requires { All (λ depth. depth < depth_count tree.now) choice.now.depths }
    ensures { IfOk result (λ text. text.items ≡ choice_text tree.now choice.now turns) }
{
    let mut text = Vec::new(alloc);
    text.extend_from_slice(b"levels ")?;
    push_names(&mut text, tree, choice.depths.as_slice())?;
    text.extend_from_slice(b"\ncost ")?;
    push_decimal(&mut text, choice.cost)?;
    text.extend_from_slice(b" turns ")?;
    push_decimal(&mut text, turns as u64)?;
    text.push(b'\n')?;
    Ok(text)
}

// Appends the names of depths, with a comma between each two.
fn push_names(out: &mut Vec<u8>, tree: &Tree, depths: &[u32]) -> Result<(), AllocError>
    requires { All (λ depth. depth < depth_count tree.now) depths.now }
    ensures { OnOk result (out.new.items ≡ out.old.items
        ++ join_by (λ depth. layer_name tree.now (layers.Depth depth)) (44 ∷ []) depths.now) }
{
    for (place, depth) in depths.iter().enumerate() {
        push_comma(out, place)?;
        push_name(out, tree.kind(*depth), tree.group_number(*depth))?;
    }
    Ok(())
}

// Appends a comma, but before the first name nothing.
fn push_comma(out: &mut Vec<u8>, place: usize) -> Result<(), AllocError>
    ensures { OnOk result (out.new.items ≡ out.old.items ++ gap place (44 ∷ [])) }
{
    if place == 0 {
        return Ok(());
    }
    out.extend_from_slice(b",")
}

// Appends the name of a kind, and of a Group its number.
fn push_name(out: &mut Vec<u8>, kind: Kind, number: u32) -> Result<(), AllocError>
    ensures { OnOk result (out.new.items ≡ out.old.items ++ long_name kind number) }
{
    out.extend_from_slice(kind.long_name())?;
    match kind {
        Kind::Group => push_decimal(out, u64::from(number)),
        _ => Ok(()),
    }
}
