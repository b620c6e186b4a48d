//! Sharing masks out over the objects of a topology.
ghost use Rattle.std.specs.Prelude.{◌≡◌, ◌+◌, ◌<◌, ◌≤◌, ℕ, length, None, vec_len, IfOk, OnOk, IfErr};
ghost use Rattle.std.specs.List.{range_with_len};
ghost use Rattle.topo_tree.specs.Building.{IsBuilt};
ghost use Rattle.topo_tree.specs.Objects.{depth_count, count_at};
ghost use Rattle.distrib_rules.specs.Shares.{shared, in_order};
ghost use Rattle.distrib_rules.specs.Expansion.{is_final, expansion};
ghost use Rattle.distrib_rules.specs.Masks.{with_pairs, distribution};
ghost use Rattle.out_of_memory.specs.Memory.{UnlessMemory};
ghost use Rattle.distrib_rules.specs.Faults.{mask_limit, distrib_fault};

use crate::fault::DistribFault;
use crate::masks::push_share;
use crate::shares::{index_at, share_at};
use cpu_set::CpuSet;
use std::alloc::{AllocError, Global};
use topo_tree::{AsTree, Layer, Object, Row, Tree};

// How many masks one distribution may have.
const MASK_LIMIT: u32 = 4096;

/// Shares n masks out over the objects of the depth `from`. Each object gets masks by its number of PUs. One with more
/// than one mask hands them on to its children, down to the depth `to`; one without a mask joins its set to the mask
/// before. With `reverse` every list of objects is taken from its last to its first.
///
/// It is refused for the first of these: no mask, more than 4,096, a start below the end.
pub fn distrib<T: AsTree>(
    alloc: Global,
    topology: &T,
    n: u32,
    from: u32,
    to: u32,
    reverse: bool,
) -> Result<Vec<CpuSet>, DistribFault>
    requires from { from < depth_count (T.described topology.now) }
    requires to { to < depth_count (T.described topology.now) }
    ensures masks { IfOk result (λ masks. masks.items
        ≡ distribution (T.described topology.now) (record { to = to; backwards = reverse }) n from) }
    ensures count { IfOk result (λ masks. vec_len masks ≡ n) }
    ensures accepted { OnOk result (distrib_fault n from to ≡ None) }
    ensures refused { IfErr result (λ fault. UnlessMemory DistribFault.OutOfMemory fault (distrib_fault n from to ≡ Some fault)) }
{
    if n == 0 {
        return Err(DistribFault::ZeroMasks);
    }
    if n > MASK_LIMIT {
        return Err(DistribFault::TooManyMasks);
    }
    if from > to {
        return Err(DistribFault::Reversed);
    }
    let tree = topology.as_tree();
    let all = Row {
        first: 0,
        count: tree.count(Layer::Depth(from)),
    };
    let distribution = Distribution {
        tree,
        last: tree.depths() - 1,
        to,
        reverse,
    };
    let mut masks = Vec::new(alloc);
    distribution.share_out(&mut masks, n, from, all)?;
    Ok(masks)
}

// How masks are shared out.
#[derive(Drop)]
struct Distribution<'a> {
    tree: &'a Tree,
    // The depth of the PUs.
    last: u32,
    to: u32,
    reverse: bool,
}

impl Distribution<'_> {
    // Appends the n masks that objects of a depth share.
    fn share_out(
        &self,
        masks: &mut Vec<CpuSet>,
        n: u32,
        depth: u32,
        objects: Row,
    ) -> Result<(), AllocError>
        requires built { IsBuilt self.now.tree.now }
        requires last { self.now.last ≡ length self.now.tree.now.levels }
        requires depth { depth < depth_count self.now.tree.now }
        requires some { 0 < objects.count }
        requires objects { objects.first + objects.count ≤ count_at self.now.tree.now depth }
        requires masks { n ≤ mask_limit }
        ensures { OnOk result (masks.new.items ≡ with_pairs self.now.tree.now masks.old.items
            (expansion self.now.tree.now (record { to = self.now.to; backwards = self.now.reverse })
            (shared self.now.tree.now n depth (in_order self.now.reverse (range_with_len objects.first objects.count))))) }
    {
        for place in 0..objects.count {
            let object = Object {
                layer: Layer::Depth(depth),
                index: index_at(objects, place, self.reverse),
            };
            let share = share_at(objects, n, place);
            if self.is_final(depth, share) {
                push_share(masks, &self.tree.set_of(object), share)?;
            } else {
                let (first, count) = self.tree.children(object);
                self.share_out(masks, share, depth + 1, Row { first, count })?;
            }
        }
        Ok(())
    }

    // Whether an object of a depth hands none of its share of masks on.
    fn is_final(&self, depth: u32, share: u32) -> bool
        requires last { self.now.last ≡ length self.now.tree.now.levels }
        ensures { (index : ℕ) → result ≡ is_final self.now.tree.now (record { to = self.now.to; backwards = self.now.reverse })
            (record { depth = depth; index = index; share = share }) }
    {
        depth >= self.last || share <= 1 || depth >= self.to
    }
}
