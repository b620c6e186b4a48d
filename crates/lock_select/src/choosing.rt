//! Choosing the levels of a lock.
ghost use Rattle.std.specs.Prelude.{◌≤◌, IfOk};
ghost use Rattle.lock_select.specs.Texts.{keep_limit, Weighs};
ghost use Rattle.lock_select.specs.Traces.{Visits};
ghost use Rattle.lock_select.specs.Costs.{IsCheapest};

use crate::choice::Choice;
use crate::nodes::common_depths;
use crate::question::Question;
use out_of_memory::OutOfMemory;
use std::alloc::Global;
use topo_tree::AsTree;

/// The list of levels that costs the least for a trace: among those of equal cost the one with the fewest levels, and among these the one
/// whose list of depths is least, compared from the lowest level.
pub fn choose<T: AsTree>(
    alloc: Global,
    topology: &T,
    weights: &[u64],
    keep: u32,
    trace: &[u32],
) -> Result<Choice, OutOfMemory>
    requires weights { Weighs (T.described topology.now) weights.now }
    requires keep { keep ≤ keep_limit }
    requires trace { Visits (T.described topology.now) trace.now }
    ensures { IfOk result (λ choice. IsCheapest (T.described topology.now) weights.now keep trace.now choice) }
{
    let tree = topology.as_tree();
    let commons = common_depths(alloc, tree, trace)?;
    let question = Question {
        tree,
        weights,
        keep,
        trace,
        commons: &commons,
    };
    Ok(question.cheapest(alloc)?)
}
