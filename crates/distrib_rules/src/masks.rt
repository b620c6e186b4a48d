//! Masks, one after another.
ghost use Rattle.std.specs.Prelude.{◌≡◌, OnOk};
ghost use Rattle.distrib_rules.specs.Masks.{join_last, with_share};

use cpu_set::CpuSet;
use std::alloc::AllocError;

/// Appends a set as often as its share says; a share of 0 joins it to the last mask.
pub fn push_share(masks: &mut Vec<CpuSet>, set: &CpuSet, share: u32) -> Result<(), AllocError>
    ensures { OnOk result (masks.new.items ≡ with_share masks.old.items set.now share) }
{
    if share == 0 {
        join_last(masks, set);
        return Ok(());
    }
    for _ in 0..share {
        masks.push(*set)?;
    }
    Ok(())
}

// Joins a set to the last mask, if there is one.
#[tactic(auto, unfolding(crate::specs::Masks::join_last))]
fn join_last(masks: &mut Vec<CpuSet>, set: &CpuSet)
    ensures { masks.new.items ≡ join_last masks.old.items set.now }
{
    let count = masks.len();
    if count > 0 {
        masks[count - 1] = masks[count - 1].union(set);
    }
}
