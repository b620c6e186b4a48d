//! The depths at which PUs have an object in common.
ghost use Rattle.std.specs.Prelude.{◌<◌, ◌≤◌, ◌-◌, IfOk};
ghost use Rattle.synth_text.specs.Rules.{pu_count};
ghost use Rattle.lock_select.specs.Traces.{Visits};
ghost use Rattle.lock_select.specs.Walks.{IsCommon, AreCommons};

use std::alloc::{AllocError, Global};
use topo_tree::Tree;

/// The lowest depth at which two PUs are under one object.
pub(crate) fn common_depth(tree: &Tree, pu: u32, next: u32) -> u32
    requires pu { pu < pu_count tree.now }
    requires next { next < pu_count tree.now }
    ensures common { IsCommon tree.now pu next result }
    ensures few { result ≤ 16 }
{
    let mut depth = tree.depths() - 1;
    while depth > 0 && tree.over(depth, pu) != tree.over(depth, next) {
        depth -= 1;
    }
    depth
}

/// The common depths of each turn's PU and the next one's.
pub(crate) fn common_depths(
    alloc: Global,
    tree: &Tree,
    trace: &[u32],
) -> Result<Vec<u8>, AllocError>
    requires { Visits tree.now trace.now }
    ensures { IfOk result (λ commons. AreCommons tree.now trace.now commons.items) }
{
    let mut commons = Vec::with_capacity(alloc, trace.len())?;
    for turn in 1..trace.len() {
        commons.push(common_depth(tree, trace[turn - 1], trace[turn]) as u8)?;
    }
    Ok(commons)
}
