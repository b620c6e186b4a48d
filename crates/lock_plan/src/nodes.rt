//! The nodes under which callers stand.
ghost use Rattle.std.specs.Prelude.{◌≡◌, ◌<◌, ◌==◌, All, Contains, IfOk, length, map, slice_index};
ghost use Rattle.std.specs.List.{position_or_len};
ghost use Rattle.std.specs.List.Sorted.{IsStrictlyIncreasing};
ghost use Rattle.synth_text.specs.Rules.{pu_count};
ghost use Rattle.topo_tree.specs.Building.{IsBuilt};
ghost use Rattle.topo_tree.specs.Objects.{depth_count};
ghost use Rattle.lock_plan.specs.Shapes.{occupied, node_on, path_on};

use sequence::Sequence;
use std::alloc::{AllocError, Global};
use topo_tree::Tree;

/// The nodes of the callers on these PUs, caller by caller, at the levels of these depths.
pub(crate) fn paths(
    alloc: Global,
    tree: &Tree,
    depths: &[u32],
    pus: &[u32],
) -> Result<Vec<Sequence<u32>>, AllocError>
    requires built { IsBuilt tree.now }
    requires depths { All (λ depth. depth < depth_count tree.now) depths.now }
    requires pus { All (λ pu. pu < pu_count tree.now) pus.now }
    ensures { IfOk result (λ paths. paths.items ≡ map (path_on tree.now pus.now depths.now) pus.now) }
{
    let levels = level_nodes(alloc, tree, depths, pus)?;
    let mut paths = Vec::with_capacity(alloc, pus.len())?;
    for caller in 0..pus.len() {
        paths.push(path(alloc, &levels, caller)?)?;
    }
    Ok(paths)
}

// The nodes of the callers on these PUs, level by level.
fn level_nodes(
    alloc: Global,
    tree: &Tree,
    depths: &[u32],
    pus: &[u32],
) -> Result<Vec<Vec<u32>>, AllocError>
    requires built { IsBuilt tree.now }
    requires depths { All (λ depth. depth < depth_count tree.now) depths.now }
    requires pus { All (λ pu. pu < pu_count tree.now) pus.now }
    ensures { IfOk result (λ levels. map (λ nodes. nodes.items) levels.items
        ≡ map (λ depth. map (node_on tree.now pus.now depth) pus.now) depths.now) }
{
    let mut levels = Vec::with_capacity(alloc, depths.len())?;
    for depth in depths {
        levels.push(nodes(alloc, tree, *depth, pus)?)?;
    }
    Ok(levels)
}

// The nodes of one caller, from those of all callers at each level.
fn path(alloc: Global, levels: &[Vec<u32>], caller: usize) -> Result<Sequence<u32>, AllocError>
    requires { All (λ nodes. caller < length nodes.items) levels.now }
    ensures { IfOk result (λ path. path ≡ map (λ nodes. slice_index nodes.items caller) levels.now) }
{
    let mut path = Vec::with_capacity(alloc, levels.len())?;
    for nodes in levels {
        path.push(nodes[caller])?;
    }
    Ok(Sequence::from_vec(path))
}

// The nodes of the callers on these PUs at the level of a depth.
fn nodes(alloc: Global, tree: &Tree, depth: u32, pus: &[u32]) -> Result<Vec<u32>, AllocError>
    requires built { IsBuilt tree.now }
    requires depth { depth < depth_count tree.now }
    requires pus { All (λ pu. pu < pu_count tree.now) pus.now }
    ensures { IfOk result (λ nodes. nodes.items ≡ map (node_on tree.now pus.now depth) pus.now) }
{
    let objects = occupied(alloc, tree, depth, pus)?;
    let mut nodes = Vec::with_capacity(alloc, pus.len())?;
    for pu in pus {
        nodes.push(rank(&objects, tree.over(depth, *pu)))?;
    }
    Ok(nodes)
}

// The objects of a depth that have a caller under them, in logical order.
fn occupied(alloc: Global, tree: &Tree, depth: u32, pus: &[u32]) -> Result<Vec<u32>, AllocError>
    requires built { IsBuilt tree.now }
    requires depth { depth < depth_count tree.now }
    requires pus { All (λ pu. pu < pu_count tree.now) pus.now }
    ensures { IfOk result (λ objects. objects.items ≡ occupied tree.now pus.now depth) }
{
    let mut objects = Vec::with_capacity(alloc, pus.len())?;
    for pu in pus {
        objects.push(tree.over(depth, *pu))?;
    }
    objects.sort_unstable();
    objects.dedup();
    Ok(objects)
}

// The place of a number in a list that rises.
fn rank(numbers: &[u32], number: u32) -> u32
    requires rising { IsStrictlyIncreasing numbers.now }
    requires has { Contains numbers.now number }
    ensures { result ≡ position_or_len (λ other. other == number) numbers.now }
{
    match numbers.binary_search(&number) {
        Ok(place) => place as u32,
        Err(place) => place as u32,
    }
}
