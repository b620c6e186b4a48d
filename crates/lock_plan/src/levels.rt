//! The levels that a plan names.
ghost use Rattle.std.specs.Prelude.{◌≡◌, ◌<◌, ◌^◌, Some, IfOk, IfErr, length};
ghost use Rattle.out_of_memory.specs.Memory.{UnlessMemory};
ghost use Rattle.synth_text.specs.IndexTexts.{entries_of};
ghost use Rattle.topo_tree.specs.Naming.{depth_named};
ghost use Rattle.lock_select.specs.Nodes.{AreLevels};
ghost use Rattle.lock_plan.specs.Lists.{comma_list};
ghost use Rattle.lock_plan.specs.Plans.{is_misplaced, first_misplaced, level_fault};

use crate::lists::{Entries, ListFault, read_list};
use run_faults::PlanFault;
use std::alloc::Global;
use topo_tree::Tree;

// How many levels a plan may have.
const LEVEL_LIMIT: usize = 5;

impl Entries for Tree {
    type Entry = u32;

    ghost says = { λ tree name. depth_named tree name };

    fn entry(&self, piece: &[u8]) -> Option<u32> {
        self.depth_named(piece)
    }
}

/// The depths that a comma list names.
pub(crate) fn read_levels(alloc: Global, tree: &Tree, text: &[u8]) -> Result<Vec<u32>, PlanFault>
    requires { length text.now < 2 ^ 32 }
    ensures named { IfOk result (λ depths. entries_of (depth_named tree.now) (comma_list text.now) ≡ Some depths.items) }
    ensures levels { IfOk result (λ depths. AreLevels tree.now depths.items) }
    ensures refused { IfErr result
        (λ fault. UnlessMemory PlanFault.OutOfMemory fault (level_fault tree.now (comma_list text.now) ≡ Some fault)) }
{
    let depths = match read_list(alloc, tree, b',', text) {
        Ok(depths) => depths,
        Err(ListFault::Unknown { place }) => return Err(PlanFault::LevelUnknown { place }),
        Err(ListFault::OutOfMemory) => return Err(PlanFault::OutOfMemory),
    };
    if depths.len() > LEVEL_LIMIT {
        return Err(PlanFault::TooDeep);
    }
    // Tells what every tree keeps.
    let _depths = tree.depths();
    match first_misplaced(&depths) {
        None => Ok(depths),
        Some(place) => Err(PlanFault::LevelOrder { place }),
    }
}

// The place of the first depth that isn't further up than the one before, or that is the last and not Machine's.
#[tactic(auto, unfolding(crate::specs::Plans::first_misplaced))]
fn first_misplaced(depths: &[u32]) -> Option<u32>
    requires { length depths.now < 2 ^ 32 }
    ensures { result ≡ first_misplaced depths.now }
{
    for place in 0..depths.len() {
        if is_misplaced(depths, place) {
            return Some(place as u32);
        }
    }
    None
}

// Whether a depth isn't further up than the one before, or is the last and not Machine's.
fn is_misplaced(depths: &[u32], place: usize) -> bool
    requires { place < length depths.now }
    ensures { result ≡ is_misplaced depths.now place }
{
    (place > 0 && depths[place - 1] <= depths[place])
        || (place + 1 == depths.len() && depths[place] > 0)
}
