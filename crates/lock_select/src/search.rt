//! The search through all lists of levels.
ghost use Rattle.std.specs.Prelude.{◌≡◌, ◌∷◌, [], OnOk, IfOk};
ghost use Rattle.lock_select.specs.Nodes.{AreLevels};
ghost use Rattle.lock_select.specs.Costs.{IsCheapest};
ghost use Rattle.lock_select.specs.Search.{IsAsked, asked_cost, CanGoOn, GoesOn, IsBestOf};

use crate::choice::Choice;
use crate::question::Question;
use crate::walk::LEVEL_LIMIT;
use sequence::Sequence;
use std::alloc::{AllocError, Global};

impl Question<'_> {
    /// Tries each list of levels that begins with some lowest depths, behind which stand so many more, each above `below`, and Machine. The
    /// lists come by their depths from the lowest level, so that the first of those that cost the least is kept.
    pub(crate) fn search(
        &self,
        alloc: Global,
        best: &mut Choice,
        levels: &mut Vec<u32>,
        more: u32,
        below: u32,
    ) -> Result<(), AllocError>
        requires asked { IsAsked self.now }
        requires front { CanGoOn self.now.tree.now levels.old.items more below }
        ensures levels { OnOk result (levels.new.items ≡ levels.old.items) }
        ensures best { OnOk result (IsBestOf (asked_cost self.now) (GoesOn levels.old.items more below) best.old best.new) }
    {
        if more == 0 {
            levels.push(0)?;
            self.consider(alloc, best, levels)?;
            levels.pop();
            return Ok(());
        }
        for depth in 1..below {
            levels.push(depth)?;
            self.search(alloc, best, levels, more - 1, depth)?;
            levels.pop();
        }
        Ok(())
    }

    // Takes a list of levels for the best one so far where it costs less.
    fn consider(&self, alloc: Global, best: &mut Choice, depths: &[u32]) -> Result<(), AllocError>
        requires asked { IsAsked self.now }
        requires levels { AreLevels self.now.tree.now depths.now }
        ensures { OnOk result (IsBestOf (asked_cost self.now) (λ others. others ≡ depths.now) best.old best.new) }
    {
        let cost = self.cost(depths);
        if cost < best.cost {
            let depths = Sequence::from_vec(Vec::from_slice(alloc, depths)?);
            *best = Choice { depths, cost };
        }
        Ok(())
    }

    /// The cheapest list of levels.
    pub(crate) fn cheapest(&self, alloc: Global) -> Result<Choice, AllocError>
        requires { IsAsked self.now }
        ensures { IfOk result (λ choice. IsCheapest self.now.tree.now self.now.weights.now self.now.keep self.now.trace.now choice) }
    {
        let mut best = self.machine_alone(alloc)?;
        let mut levels = Vec::with_capacity(alloc, LEVEL_LIMIT)?;
        for more in 1..LEVEL_LIMIT as u32 {
            self.search(alloc, &mut best, &mut levels, more, self.tree.depths())?;
        }
        Ok(best)
    }

    // The list of one level.
    fn machine_alone(&self, alloc: Global) -> Result<Choice, AllocError>
        requires { IsAsked self.now }
        ensures depths { IfOk result (λ choice. choice.depths ≡ 0 ∷ []) }
        ensures cost { IfOk result (λ choice. choice.cost ≡ asked_cost self.now choice.depths) }
    {
        let depths = Vec::from_slice(alloc, &[0])?;
        let cost = self.cost(&depths);
        Ok(Choice {
            depths: Sequence::from_vec(depths),
            cost,
        })
    }
}
