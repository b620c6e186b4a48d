//! What is answered of a set.
ghost use Rattle.std.specs.Prelude.{◌≡◌, ◌<◌, ◌++◌, All, IfOk, OnOk};
ghost use Rattle.std.specs.List.{AllByRecursion, flat_map};
ghost use Rattle.topo_tree.specs.Objects.{count_of, IsLayer, IsObject};
ghost use Rattle.calc_query.specs.Answers.{intersecting, end_of, with_step, extended, chains, is_largest, largest};
ghost use Rattle.calc_query.specs.Found.{IsFound};

use crate::candidates::row_inside;
use crate::found::{Found, found_at_first, is_inside};
use crate::query::{Path, Step2};
use cpu_set::CpuSet;
use out_of_memory::OutOfMemory;
use std::alloc::{AllocError, Global};
use synth_text::Sequence;
use topo_tree::{AsTree, Layer, MACHINE, Object, Tree};

/// The objects of a layer that have a PU of a set, by their indexes, in logical order.
pub fn intersecting<T: AsTree>(
    alloc: Global,
    topology: &T,
    set: &CpuSet,
    layer: Layer,
) -> Result<Vec<u32>, OutOfMemory>
    requires { IsLayer (T.described topology.now) layer }
    ensures indexes { IfOk result (λ indexes. indexes.items ≡ intersecting (T.described topology.now) set.now layer) }
    ensures fit { IfOk result (λ indexes. All (λ index. index < count_of (T.described topology.now) layer) indexes.items) }
{
    let tree = topology.as_tree();
    let mut indexes = Vec::new(alloc);
    for index in 0..tree.count(layer) {
        if tree.meets(Object { layer, index }, set) {
            indexes.push(index)?;
        }
    }
    Ok(indexes)
}

/// The chains of objects of such layers, each inside the one before, all of which have a PU of a set. They come in the
/// order of their first objects, then of their second ones, and so on.
pub fn hierarchical<T: AsTree>(
    alloc: Global,
    topology: &T,
    set: &CpuSet,
    layers: &[Layer],
) -> Result<Vec<Path>, OutOfMemory>
    requires { AllByRecursion (IsLayer (T.described topology.now)) layers.now }
    ensures paths { IfOk result (λ paths. paths.items ≡ chains (T.described topology.now) set.now layers.now) }
    ensures fit { IfOk result (λ paths.
        All (λ path. All (λ step. IsObject (T.described topology.now) step.object) path.steps) paths.items) }
{
    let tree = topology.as_tree();
    let mut paths = Vec::new(alloc);
    paths.push(Path {
        steps: Sequence::from_vec(Vec::new(alloc)),
    })?;
    for layer in layers {
        paths = longer(alloc, tree, set, *layer, &paths)?;
    }
    Ok(paths)
}

// Each path, once more for each object of a layer inside its end that has a PU of a set.
fn longer(
    alloc: Global,
    tree: &Tree,
    set: &CpuSet,
    layer: Layer,
    paths: &[Path],
) -> Result<Vec<Path>, AllocError>
    requires layer { IsLayer tree.now layer }
    requires ends { All (λ path. IsObject tree.now (end_of path)) paths.now }
    ensures paths { IfOk result (λ longer. longer.items ≡ flat_map (extended tree.now set.now layer) paths.now) }
    ensures ends { IfOk result (λ longer. All (λ path. IsObject tree.now (end_of path)) longer.items) }
{
    let mut out = Vec::new(alloc);
    for path in paths {
        push_extended(alloc, &mut out, tree, set, layer, path)?;
    }
    Ok(out)
}

// Appends a path, once for each object of a layer inside its end that has a PU of a set.
fn push_extended(
    alloc: Global,
    out: &mut Vec<Path>,
    tree: &Tree,
    set: &CpuSet,
    layer: Layer,
    path: &Path,
) -> Result<(), AllocError>
    requires layer { IsLayer tree.now layer }
    requires end { IsObject tree.now (end_of path.now) }
    requires ends { All (λ path. IsObject tree.now (end_of path)) out.old.items }
    ensures paths { OnOk result (out.new.items ≡ out.old.items ++ extended tree.now set.now layer path.now) }
    ensures ends { OnOk result (All (λ path. IsObject tree.now (end_of path)) out.new.items) }
{
    let row = row_inside(tree, end_of(path), layer);
    for position in 0..row.count {
        let object = Object {
            layer,
            index: row.first + position,
        };
        if tree.meets(object, set) {
            out.push(with_step(alloc, path, Step2 { object, position })?)?;
        }
    }
    Ok(())
}

// The object that a path ends with.
fn end_of(path: &Path) -> Object
    ensures { result ≡ end_of path.now }
{
    match path.steps.as_slice().last() {
        Some(step) => step.object,
        None => MACHINE,
    }
}

// A path with one more step.
fn with_step(alloc: Global, path: &Path, step: Step2) -> Result<Path, AllocError>
    ensures { IfOk result (λ longer. longer ≡ with_step path.now step) }
{
    let before = path.steps.as_slice();
    let mut steps = Vec::with_capacity(alloc, before.len() + 1)?;
    steps.extend_from_slice(before)?;
    steps.push(step)?;
    Ok(Path {
        steps: Sequence::from_vec(steps),
    })
}

/// The objects of a depth that a set has all PUs of, while it hasn't all of the object above; in tree order.
pub fn largest<T: AsTree>(
    alloc: Global,
    topology: &T,
    set: &CpuSet,
) -> Result<Vec<Object>, OutOfMemory>
    ensures objects { IfOk result (λ objects. objects.items ≡ largest (T.described topology.now) set.now) }
    ensures fit { IfOk result (λ objects. All (IsObject (T.described topology.now)) objects.items) }
{
    let tree = topology.as_tree();
    let mut found = found_at_first(alloc, tree, set)?;
    let mut objects = Vec::new(alloc);
    for object in &tree.tree_order(alloc)? {
        if is_largest(tree, set, &mut found, *object) {
            objects.push(*object)?;
        }
    }
    Ok(objects)
}

// Whether a set has all PUs of an object, and not all of the object above. `found` is what was found of the last object of each depth,
// which the children of one object ask for in turn.
fn is_largest(tree: &Tree, set: &CpuSet, found: &mut Vec<Found>, object: Object) -> bool
    requires object { IsObject tree.now object }
    requires found { All (IsFound tree.now set.now) found.old.items }
    ensures largest { result ≡ is_largest tree.now set.now object }
    ensures found { All (IsFound tree.now set.now) found.new.items }
{
    if !is_inside(tree, set, found, object) {
        return false;
    }
    match tree.parent(object) {
        Some(above) => !is_inside(tree, set, found, above),
        None => true,
    }
}
