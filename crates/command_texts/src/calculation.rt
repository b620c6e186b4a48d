//! What `calc` prints.
ghost use Rattle.std.specs.Prelude.{◌≡◌, ◌++◌, ◌∷◌, [], ℕ, List, option_map, IfOk, IfErr, IsOk};
ghost use Rattle.out_of_memory.specs.Memory.{UnlessMemory};
ghost use Rattle.calc_text.specs.Layers.{HasLayers};
ghost use Rattle.calc_text.specs.Texts.{answer_text};
ghost use Rattle.command_words.specs.Plain.{plain_question, plain_calculation};
ghost use Rattle.command_texts.specs.declared.status.Fault.TheVariants.{TypeOf};
ghost use Rattle.command_texts.specs.declared.status.Status.{Status as AnyStatus};
ghost use Rattle.command_texts.specs.CalcText.{numbering_of, answer_for, calc_status, calc_on, PrintsCalc, CalcRefuses};
ghost use Rattle.command_texts.specs.Ends.{EndsEarly};

use crate::chosen::chosen;
use crate::topology::tree;
use crate::{Fault, OptionName, Status};
use calc_query::{CalcFault, Numbering, select};
use calc_text::{AnswerKind, AnswerStyle, answer_text, read_layers, read_terms};
use command_words::{CalcQuestion, Calculation};
use cpu_set::CpuSet;
use out_of_memory::OutOfMemory;
use std::alloc::Global;
use topo_tree::Tree;

/// The answer on the set that locations select, or the status with which it is refused.
pub fn calc_output(alloc: Global, asked: &Calculation<'_>) -> Result<Vec<u8>, Status>
    ensures ok { IfOk result (λ printed. PrintsCalc (plain_calculation asked.now) printed.items) }
    ensures err { IfErr result (λ status. UnlessMemory Status.OutOfMemory status (CalcRefuses (plain_calculation asked.now) status)) }
    ensures refused { (status : AnyStatus) → CalcRefuses (plain_calculation asked.now) status →
        UnlessMemory (Err Status.OutOfMemory) result (result ≡ Err status) }
    ensures complete { (printed : List ℕ) → PrintsCalc (plain_calculation asked.now) printed →
        UnlessMemory (Err Status.OutOfMemory) result (IsOk result) }
    ensures early { IfErr result EndsEarly }
{
    match tree(alloc, asked.description) {
        Ok(tree) => match answer_on(alloc, &tree, asked) {
            Ok(text) => Ok(text),
            Err(status) => Err(status),
        },
        Err(status) => Err(status),
    }
}

// The answer on a tree, or the status with which it is refused.
#[tactic(auto, unfolding(crate::specs::CalcText::calc_on))]
fn answer_on(alloc: Global, tree: &Tree, asked: &Calculation<'_>) -> Result<Vec<u8>, Status>
    ensures ok { IfOk result (λ printed. calc_on tree.now (plain_calculation asked.now) ≡ Ok printed.items) }
    ensures err { IfErr result (λ status. UnlessMemory Status.OutOfMemory status
        (calc_on tree.now (plain_calculation asked.now) ≡ Err status)) }
    ensures early { IfErr result EndsEarly }
{
    let answer = match answer_for(alloc, tree, asked.question) {
        Ok(answer) => answer,
        Err(status) => return Err(status),
    };
    let terms = match read_terms(alloc, tree, &asked.locations) {
        Ok(terms) => terms,
        Err(fault) => return Err(calc_status(fault)),
    };
    let numbering = numbering_of(asked.physical);
    let style = AnswerStyle {
        numbering,
        taskset: asked.taskset,
        separator: asked.separator,
    };
    let set = chosen(asked.single, &select(tree, &terms, numbering));
    match answer_line(alloc, tree, &set, &answer, style) {
        Ok(text) => Ok(text),
        Err(OutOfMemory) => Err(Status::OutOfMemory),
    }
}

// Which answer on a set is asked for, on a topology.
fn answer_for(alloc: Global, tree: &Tree, question: CalcQuestion<'_>) -> Result<AnswerKind, Status>
    ensures ok { IfOk result (λ answer. answer_for tree.now (plain_question question.entry) ≡ Ok answer) }
    ensures err { IfErr result (λ status. UnlessMemory Status.OutOfMemory status
        (answer_for tree.now (plain_question question.entry) ≡ Err status)) }
    ensures fit { IfOk result (HasLayers tree.now) }
    ensures early { IfErr result EndsEarly }
{
    match question {
        CalcQuestion::Set => Ok(AnswerKind::Set),
        CalcQuestion::Intersect(name) => match tree.layer_named(name) {
            Some(layer) => Ok(AnswerKind::Objects(layer)),
            None => Err(untyped(OptionName::Intersect)),
        },
        CalcQuestion::NumberOf(name) => match tree.layer_named(name) {
            Some(layer) => Ok(AnswerKind::Count(layer)),
            None => Err(untyped(OptionName::NumberOf)),
        },
        CalcQuestion::Hierarchical(names) => match read_layers(alloc, tree, names) {
            Ok(Some(layers)) => Ok(AnswerKind::Chains(layers)),
            Ok(None) => Err(untyped(OptionName::Hierarchical)),
            Err(OutOfMemory) => Err(Status::OutOfMemory),
        },
        CalcQuestion::Largest => Ok(AnswerKind::Largest),
    }
}

// The refusal of an option's type.
fn untyped(option: OptionName) -> Status
    ensures { result ≡ Status.Malformed (TypeOf option) }
{
    Status::Malformed(Fault::TypeOf(option))
}

// Which numbers objects have.
fn numbering_of(physical: bool) -> Numbering
    ensures { result ≡ numbering_of physical }
{
    if physical {
        Numbering::Physical
    } else {
        Numbering::Logical
    }
}

// The status of a fault of a location.
fn calc_status(fault: CalcFault) -> Status
    ensures status { result ≡ calc_status fault }
    ensures early { EndsEarly result }
{
    match fault {
        CalcFault::OutOfMemory => Status::OutOfMemory,
        _ => Status::Malformed(Fault::Calc(fault)),
    }
}

// The text of an answer, and a line end.
fn answer_line(
    alloc: Global,
    tree: &Tree,
    set: &CpuSet,
    answer: &AnswerKind,
    style: AnswerStyle<'_>,
) -> Result<Vec<u8>, OutOfMemory>
    requires { HasLayers tree.now answer.now }
    ensures { IfOk result (λ text. text.items ≡ answer_text tree.now set.now answer.now style.entry.numbering
        style.entry.taskset (option_map (λ separator. separator.now) style.entry.separator) ++ 10 ∷ []) }
{
    let mut text = answer_text(alloc, tree, set, answer, style)?;
    text.push(b'\n')?;
    Ok(text)
}
