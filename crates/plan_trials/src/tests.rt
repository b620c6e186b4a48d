//! The tests, by what they ask of a topology.
use std::alloc::Global;
use std::fmt::Display;
use std::process::Abort;
use std::test::Fail;
use synth_text::read;
use topo_tree::{Topology, Tree};

mod choices;
mod drills;
mod masks;
mod plans;

fn tree_of(rt: &impl Abort, alloc: Global, text: &[u8]) -> Tree {
    match read(alloc, text) {
        Ok(description) => match Tree::build(alloc, description) {
            Ok(tree) => tree,
            Err(_) => panic!(rt; "not a topology"),
        },
        Err(_) => panic!(rt; "not a description"),
    }
}

fn topology_of(rt: &impl Abort, alloc: Global, text: &[u8]) -> Topology {
    match Topology::from_tree(alloc, tree_of(rt, alloc, text)) {
        Ok(topology) => topology,
        Err(_) => panic!(rt; "no memory"),
    }
}

// Each fault has its words.
fn expect_words<F: Display>(
    rt: &impl Abort,
    alloc: Global,
    rows: &[(F, &str)],
) -> Result<(), Fail> {
    for (fault, wanted) in rows {
        let told = format!(in alloc; "{fault}")?;
        assert_eq!(rt; told.as_str(), *wanted);
    }
    Ok(())
}
