//! What was found of the last object of each depth, so that the children of one object don't each go over all its PUs.
ghost use Rattle.std.specs.Prelude.{◌≡◌, All, IfOk};
ghost use Rattle.cpu_set.specs.Tests.{is_inside};
ghost use Rattle.topo_tree.specs.Objects.{IsObject};
ghost use Rattle.topo_tree.specs.Coverage.{set_of};
ghost use Rattle.calc_query.specs.Found.{IsFound};

use cpu_set::CpuSet;
use std::alloc::{AllocError, Global};
use topo_tree::{Layer, MACHINE, Object, Tree};

/// Whether a set has all PUs of an object.
#[derive(Clone, Copy)]
pub(crate) struct Found {
    pub(crate) object: Object,
    pub(crate) inside: bool,
}

/// What is found first: Machine, for each depth.
pub(crate) fn found_at_first(
    alloc: Global,
    tree: &Tree,
    set: &CpuSet,
) -> Result<Vec<Found>, AllocError>
    ensures { IfOk result (λ found. All (IsFound tree.now set.now) found.items) }
{
    let depths = tree.depths() as usize;
    let found = Found {
        object: MACHINE,
        inside: tree.inside(MACHINE, set),
    };
    Vec::from_elem(alloc, found, depths)
}

/// Whether a set has all PUs of an object, which is found once as long as no other of its depth is asked for.
pub(crate) fn is_inside(tree: &Tree, set: &CpuSet, found: &mut Vec<Found>, object: Object) -> bool
    requires object { IsObject tree.now object }
    requires found { All (IsFound tree.now set.now) found.old.items }
    ensures inside { result ≡ is_inside (set_of tree.now object.layer object.index) set.now }
    ensures found { All (IsFound tree.now set.now) found.new.items }
{
    let place = match object.layer {
        Layer::Depth(depth) => depth as usize,
        Layer::Memory => return tree.inside(object, set),
    };
    if place >= found.len() {
        return tree.inside(object, set);
    }
    if found[place].object != object {
        found[place] = Found {
            object,
            inside: tree.inside(object, set),
        };
    }
    found[place].inside
}
