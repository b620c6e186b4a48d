//! Answers that are lists of items.
ghost use Rattle.std.specs.Prelude.{◌≡◌, ◌<◌, ◌++◌, ◌∷◌, [], All, IfOk, OnOk, decimal, length};
ghost use Rattle.std.specs.List.{AllByRecursion, join_by};
ghost use Rattle.topo_tree.specs.Objects.{count_of, IsLayer, IsObject};
ghost use Rattle.calc_query.specs.Answers.{intersecting, chains, largest};
ghost use Rattle.calc_text.specs.Texts.{gap, index_text, object_text, path_text, step_text};

use crate::labels::{push_label, shown_number};
use byte_text::push_decimal;
use calc_query::{Numbering, Path, Step2, hierarchical, intersecting, largest};
use cpu_set::CpuSet;
use out_of_memory::OutOfMemory;
use std::alloc::{AllocError, Global};
use topo_tree::{Layer, Object, Tree};

/// The numbers of the objects of a layer that have a PU of a set.
pub(crate) fn objects_text(
    alloc: Global,
    tree: &Tree,
    set: &CpuSet,
    layer: Layer,
    numbering: Numbering,
    separator: &[u8],
) -> Result<Vec<u8>, OutOfMemory>
    requires { IsLayer tree.now layer }
    ensures { IfOk result (λ text. text.items
        ≡ join_by (index_text tree.now numbering layer) separator.now (intersecting tree.now set.now layer)) }
{
    let indexes = intersecting(alloc, tree, set, layer)?;
    let mut text = Vec::new(alloc);
    push_numbers(&mut text, tree, layer, numbering, separator, &indexes)?;
    Ok(text)
}

// Appends the numbers of objects of a layer.
fn push_numbers(
    out: &mut Vec<u8>,
    tree: &Tree,
    layer: Layer,
    numbering: Numbering,
    separator: &[u8],
    indexes: &[u32],
) -> Result<(), AllocError>
    requires layer { IsLayer tree.now layer }
    requires fit { All (λ index. index < count_of tree.now layer) indexes.now }
    ensures { OnOk result (out.new.items
        ≡ out.old.items ++ join_by (index_text tree.now numbering layer) separator.now indexes.now) }
{
    for (place, index) in indexes.iter().enumerate() {
        push_separator(out, place, separator)?;
        let object = Object {
            layer,
            index: *index,
        };
        push_decimal(
            out,
            u64::from(shown_number(tree, numbering, object, *index)),
        )?;
    }
    Ok(())
}

// Appends what stands before an item, which is nothing before the first one.
fn push_separator(out: &mut Vec<u8>, place: usize, separator: &[u8]) -> Result<(), AllocError>
    ensures { OnOk result (out.new.items ≡ out.old.items ++ gap place separator.now) }
{
    if place == 0 {
        return Ok(());
    }
    out.extend_from_slice(separator)
}

/// How many objects of a layer have a PU of a set.
pub(crate) fn count_text(
    alloc: Global,
    tree: &Tree,
    set: &CpuSet,
    layer: Layer,
) -> Result<Vec<u8>, OutOfMemory>
    requires { IsLayer tree.now layer }
    ensures { IfOk result (λ text. text.items ≡ decimal (length (intersecting tree.now set.now layer))) }
{
    let indexes = intersecting(alloc, tree, set, layer)?;
    let mut text = Vec::new(alloc);
    push_decimal(&mut text, indexes.len() as u64)?;
    Ok(text)
}

/// The chains of objects of such layers that have a PU of a set.
pub(crate) fn chains_text(
    alloc: Global,
    tree: &Tree,
    set: &CpuSet,
    layers: &[Layer],
    numbering: Numbering,
    separator: &[u8],
) -> Result<Vec<u8>, OutOfMemory>
    requires { AllByRecursion (IsLayer tree.now) layers.now }
    ensures { IfOk result (λ text. text.items
        ≡ join_by (path_text tree.now numbering) separator.now (chains tree.now set.now layers.now)) }
{
    let paths = hierarchical(alloc, tree, set, layers)?;
    let mut text = Vec::new(alloc);
    push_paths(&mut text, tree, numbering, separator, &paths)?;
    Ok(text)
}

// Appends paths.
fn push_paths(
    out: &mut Vec<u8>,
    tree: &Tree,
    numbering: Numbering,
    separator: &[u8],
    paths: &[Path],
) -> Result<(), AllocError>
    requires { All (λ path. All (λ step. IsObject tree.now step.object) path.steps) paths.now }
    ensures { OnOk result (out.new.items ≡ out.old.items ++ join_by (path_text tree.now numbering) separator.now paths.now) }
{
    for (place, path) in paths.iter().enumerate() {
        push_separator(out, place, separator)?;
        push_steps(out, tree, numbering, path.steps.as_slice())?;
    }
    Ok(())
}

// Appends the steps of a path, with a dot between each two.
fn push_steps(
    out: &mut Vec<u8>,
    tree: &Tree,
    numbering: Numbering,
    steps: &[Step2],
) -> Result<(), AllocError>
    requires { All (λ step. IsObject tree.now step.object) steps.now }
    ensures { OnOk result (out.new.items ≡ out.old.items ++ join_by (step_text tree.now numbering) (46 ∷ []) steps.now) }
{
    for (place, step) in steps.iter().enumerate() {
        push_separator(out, place, b".")?;
        push_label(out, tree, numbering, step.object, step.position)?;
    }
    Ok(())
}

/// The largest objects that a set has all PUs of.
pub(crate) fn largest_text(
    alloc: Global,
    tree: &Tree,
    set: &CpuSet,
    numbering: Numbering,
    separator: &[u8],
) -> Result<Vec<u8>, OutOfMemory>
    ensures { IfOk result (λ text. text.items
        ≡ join_by (object_text tree.now numbering) separator.now (largest tree.now set.now)) }
{
    let objects = largest(alloc, tree, set)?;
    let mut text = Vec::new(alloc);
    push_objects(&mut text, tree, numbering, separator, &objects)?;
    Ok(text)
}

// Appends objects.
fn push_objects(
    out: &mut Vec<u8>,
    tree: &Tree,
    numbering: Numbering,
    separator: &[u8],
    objects: &[Object],
) -> Result<(), AllocError>
    requires { All (IsObject tree.now) objects.now }
    ensures { OnOk result (out.new.items ≡ out.old.items ++ join_by (object_text tree.now numbering) separator.now objects.now) }
{
    for (place, object) in objects.iter().enumerate() {
        push_separator(out, place, separator)?;
        push_label(out, tree, numbering, *object, object.index)?;
    }
    Ok(())
}
