//! What a choice is asked for.
ghost use Rattle.std.specs.Prelude.{◌≡◌};
ghost use Rattle.lock_select.specs.Nodes.{AreLevels};
ghost use Rattle.lock_select.specs.Costs.{cost_of};
ghost use Rattle.lock_select.specs.Search.{IsAsked};

use crate::walk::{LEVEL_LIMIT, climb_costs, first_cost, hand_on};
use topo_tree::Tree;

/// A trace on a topology, with weights and a keep, and the common depths of each turn's PU and the next one's, which do not depend on the
/// levels.
#[derive(Drop)]
pub(crate) struct Question<'a> {
    pub tree: &'a Tree,
    pub weights: &'a [u64],
    pub keep: u32,
    pub trace: &'a [u32],
    pub commons: &'a [u8],
}

impl Question<'_> {
    /// What a list of levels costs.
    pub(crate) fn cost(&self, depths: &[u32]) -> u64
        requires asked { IsAsked self.now }
        requires levels { AreLevels self.now.tree.now depths.now }
        ensures { result ≡ cost_of self.now.tree.now self.now.weights.now depths.now self.now.keep self.now.trace.now }
    {
        if self.trace.is_empty() {
            return 0;
        }
        let costs = climb_costs(self.weights, depths);
        let mut runs = [0; LEVEL_LIMIT];
        let mut cost = first_cost(&costs, depths);
        for common in self.commons {
            cost += costs[hand_on(&mut runs, depths, self.keep, u32::from(*common))];
        }
        cost
    }
}
