//! What a list of levels costs.
ghost use Rattle.std.specs.Prelude.{◌≡◌, ◌≤◌};
ghost use Rattle.lock_select.specs.Texts.{keep_limit, Weighs};
ghost use Rattle.lock_select.specs.Traces.{Visits};
ghost use Rattle.lock_select.specs.Nodes.{AreLevels};
ghost use Rattle.lock_select.specs.Costs.{cost_of};

use crate::nodes::common_depth;
use crate::walk::{LEVEL_LIMIT, climb_costs, first_cost, hand_on};
use topo_tree::AsTree;

/// The weighted number of lock takings that the ideal turns of a trace make under a list of levels: for each turn the weights of the depths
/// that it climbs, from the lowest level up to the one at which the turn before it was handed on.
pub fn cost<T: AsTree>(
    topology: &T,
    weights: &[u64],
    depths: &[u32],
    keep: u32,
    trace: &[u32],
) -> u64
    requires weights { Weighs (T.described topology.now) weights.now }
    requires levels { AreLevels (T.described topology.now) depths.now }
    requires keep { keep ≤ keep_limit }
    requires trace { Visits (T.described topology.now) trace.now }
    ensures { result ≡ cost_of (T.described topology.now) weights.now depths.now keep trace.now }
{
    if trace.is_empty() {
        return 0;
    }
    let tree = topology.as_tree();
    let costs = climb_costs(weights, depths);
    let mut runs = [0; LEVEL_LIMIT];
    let mut cost = first_cost(&costs, depths);
    for turn in 1..trace.len() {
        let common = common_depth(tree, trace[turn - 1], trace[turn]);
        cost += costs[hand_on(&mut runs, depths, keep, common)];
    }
    cost
}
