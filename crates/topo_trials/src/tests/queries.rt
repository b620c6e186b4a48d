//! Locations and answers about them, as values and as texts.
ghost use Rattle.topo_tree.specs.Objects.{IsLayer};
ghost use Rattle.calc_query.specs.Selection.{HaveLayers};

use super::{built_tree as tree, expect_equal};
use byte_text::Words;
use calc_query::{
    CalcFault, Numbering, Term, hierarchical, intersecting, largest, read_location, read_term,
    select,
};
use cpu_set::CpuSet;
use std::alloc::Global;
use std::process::Abort;
use topo_tree::{Layer, Object, Topology, Tree};

mod answers;
mod faults;
mod sets;
mod texts;
mod trees;

fn built(rt: &impl Abort, alloc: Global, text: &str) -> Topology {
    Topology::from_tree(alloc, tree(rt, alloc, text)).expect(rt, "memory")
}

// The set that words with spaces between them select.
fn selected(
    rt: &impl Abort,
    alloc: Global,
    topology: &Topology,
    words: &[u8],
    numbering: Numbering,
) -> CpuSet {
    let mut terms = Vec::new(alloc);
    let mut reader = Words::new(words);
    while let Some(word) = reader.next() {
        push_term(rt, alloc, topology, &mut terms, word);
    }
    select(topology, terms.as_slice(), numbering)
}

// Appends the term that a word is.
fn push_term(
    rt: &impl Abort,
    alloc: Global,
    topology: &Topology,
    terms: &mut Vec<Term>,
    word: &[u8],
)
    requires { HaveLayers topology.now terms.old.items }
    ensures { HaveLayers topology.now terms.new.items }
{
    let term = read_term(alloc, topology, word, 0).expect(rt, "a term");
    terms.push(term).expect(rt, "memory");
}

// The set is the one in hexadecimal.
fn expect_set(rt: &impl Abort, row: &str, set: &CpuSet, hex: &str) {
    let wanted = CpuSet::read_hex(hex.as_bytes()).expect(rt, hex);
    let same = [set.inside(&wanted), wanted.inside(set)];
    expect_equal(rt, row, same, [true; 2]);
}

// The layer that a word names.
fn layer(rt: &impl Abort, topology: &Topology, word: &str) -> Layer
    ensures { IsLayer topology.now result }
{
    match topology.layer_named(word.as_bytes()) {
        Some(layer) => layer,
        None => panic!(rt; "no layer"),
    }
}
