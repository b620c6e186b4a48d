//! A plan of the levels of a lock.
ghost use Rattle.std.specs.Prelude.{◌≡◌, ◌<◌, ◌^◌, All, IfOk, IfErr, IfSome, length};
ghost use Rattle.out_of_memory.specs.Memory.{UnlessMemory};
ghost use Rattle.byte_text.specs.Views.{text_at};
ghost use Rattle.synth_text.specs.Rules.{pu_count};
ghost use Rattle.lock_plan.specs.Laws.{IsTree};
ghost use Rattle.lock_plan.specs.Plans.{IsPlan, IsPlanFor, PlanRefused};
ghost use Rattle.lock_plan.specs.Shapes.{IsShapeOf};

use crate::keeps::read_keeps;
use crate::kind::LockKind;
use crate::levels::read_levels;
use crate::locks::read_locks;
use crate::nodes::paths;
use keep_local::Shape;
use out_of_memory::OutOfMemory;
use run_faults::PlanFault;
use sequence::Sequence;
use std::alloc::Global;
use topo_tree::AsTree;

/// The levels of a composed lock over a topology, the lowest first.
#[derive(Debug, Drop)]
pub struct Plan {
    /// The depth of the layer of each level, one or more, each smaller than the one before; the last is 0.
    pub depths: Sequence<u32>,
    /// The kind of the locks of each level.
    pub kinds: Sequence<LockKind>,
    /// How many turns in a row each level below the top may hand the lock over inside one of its nodes.
    pub keeps: Sequence<u32>,
}

impl Plan {
    /// The plan that three texts describe for a topology. `levels` is a comma list of names of layers, the lowest level first; a name of
    /// NUMANode stands for the depth that carries the memory. `locks` is a list of names of kinds (`tkt`, `mcs`, `clh`, `hem`, and
    /// `tktc`, `mcsc`, `clhc`, `hemc` for those that count their waiters) joined by dashes, the lowest level's first; where it is absent,
    /// each level has MCS. `keeps` is one decimal number for every level below the top, or as many as there are such levels, joined by
    /// commas. Texts are refused for the first rule that they break (`PlanFault`).
    pub fn read<T: AsTree>(
        alloc: Global,
        topology: &T,
        levels: &[u8],
        locks: Option<&[u8]>,
        keeps: &[u8],
    ) -> Result<Plan, PlanFault>
        requires levels { length levels.now < 2 ^ 32 }
        requires locks { IfSome locks (λ text. length text.now < 2 ^ 32) }
        requires keeps { length keeps.now < 2 ^ 32 }
        ensures plan { IfOk result (IsPlan (T.described topology.now) levels.now (text_at locks.entry) keeps.now) }
        ensures usable { IfOk result (IsPlanFor (T.described topology.now)) }
        ensures refused { IfErr result (λ fault. UnlessMemory PlanFault.OutOfMemory fault
            (PlanRefused (T.described topology.now) levels.now (text_at locks.entry) keeps.now fault)) }
    {
        let depths = read_levels(alloc, topology.as_tree(), levels)?;
        let kinds = read_locks(alloc, depths.len(), locks)?;
        let keeps = read_keeps(alloc, depths.len(), keeps)?;
        Ok(Plan {
            depths: Sequence::from_vec(depths),
            kinds: Sequence::from_vec(kinds),
            keeps: Sequence::from_vec(keeps),
        })
    }

    /// The shape of the plan's lock, whose callers stand on these PUs, by their logical numbers. At each level the nodes are the objects of
    /// its depth that have a caller under them, numbered from 0 in logical order. It is refused for want of memory alone.
    pub fn shape<T: AsTree>(
        &self,
        alloc: Global,
        topology: &T,
        pus: &[u32],
    ) -> Result<Shape, OutOfMemory>
        requires plan { IsPlanFor (T.described topology.now) self.now }
        requires pus { All (λ pu. pu < pu_count (T.described topology.now)) pus.now }
        ensures shape { IfOk result (IsShapeOf (T.described topology.now) self.now pus.now) }
        ensures tree { IfOk result (IsTree self.now pus.now) }
    {
        let tree = topology.as_tree();
        // Tells what every tree keeps.
        let _depths = tree.depths();
        let paths = paths(alloc, tree, self.depths.as_slice(), pus)?;
        let keeps = Vec::from_slice(alloc, self.keeps.as_slice())?;
        Ok(Shape {
            paths: Sequence::from_vec(paths),
            keeps: Sequence::from_vec(keeps),
        })
    }
}
