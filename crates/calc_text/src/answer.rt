//! What is printed of a set.
ghost use Rattle.std.specs.Prelude.{◌≡◌, IfOk, option_map};
ghost use Rattle.calc_text.specs.Layers.{HasLayers};
ghost use Rattle.calc_text.specs.Texts.{answer_text, between, set_text};

use crate::items::{chains_text, count_text, largest_text, objects_text};
use calc_query::Numbering;
use cpu_set::CpuSet;
use out_of_memory::OutOfMemory;
use sequence::Sequence;
use std::alloc::Global;
use topo_tree::{Layer, Tree};

/// Which answer on a set is asked for.
#[derive(Drop)]
pub enum AnswerKind {
    /// The set itself.
    Set,
    /// The numbers of the objects of a layer that have a PU of the set, in logical order.
    Objects(Layer),
    /// How many objects of a layer have a PU of the set.
    Count(Layer),
    /// The chains of objects of these layers, each inside the one before, all of which have a PU of the set.
    Chains(Sequence<Layer>),
    /// The largest objects that the set has all PUs of.
    Largest,
}

/// How an answer is printed.
#[derive(Clone, Copy)]
pub struct AnswerStyle<'a> {
    /// Which numbers are shown of PUs and nodes of memory.
    pub numbering: Numbering,
    /// Sets are printed in taskset's form.
    pub taskset: bool,
    /// What stands between two items: where it isn't given, a comma between numbers, and else a space.
    pub separator: Option<&'a [u8]>,
}

/// The text of an answer, without a line end.
#[tactic(auto, unfolding(crate::specs::Texts::answer_text))]
pub fn answer_text(
    alloc: Global,
    tree: &Tree,
    set: &CpuSet,
    answer: &AnswerKind,
    style: AnswerStyle<'_>,
) -> Result<Vec<u8>, OutOfMemory>
    requires { HasLayers tree.now answer.now }
    ensures { IfOk result (λ text. text.items ≡ answer_text tree.now set.now answer.now style.entry.numbering style.entry.taskset
        (option_map (λ separator. separator.now) style.entry.separator)) }
{
    let numbering = style.numbering;
    match answer {
        AnswerKind::Set => set_text(alloc, style.taskset, set),
        AnswerKind::Objects(layer) => objects_text(
            alloc,
            tree,
            set,
            *layer,
            numbering,
            between(style, b","),
        ),
        AnswerKind::Count(layer) => count_text(alloc, tree, set, *layer),
        AnswerKind::Chains(layers) => chains_text(
            alloc,
            tree,
            set,
            layers.as_slice(),
            numbering,
            between(style, b" "),
        ),
        AnswerKind::Largest => largest_text(alloc, tree, set, numbering, between(style, b" ")),
    }
}

// The separator that is given, or another.
fn between<'a>(style: AnswerStyle<'a>, other: &'static [u8]) -> &'a [u8]
    ensures { result.now ≡ between (option_map (λ separator. separator.now) style.entry.separator) other.now }
{
    match style.separator {
        Some(separator) => separator,
        None => other,
    }
}

/// A set in taskset's form, or in hexadecimal.
pub fn set_text(alloc: Global, taskset: bool, set: &CpuSet) -> Result<Vec<u8>, OutOfMemory>
    ensures { IfOk result (λ text. text.items ≡ set_text taskset set.now) }
{
    if taskset {
        set.write_taskset(alloc)
    } else {
        set.write_hex(alloc)
    }
}
