//! Names and numbers of objects.
ghost use Rattle.std.specs.Prelude.{◌≡◌, ◌++◌, ◌<◌, OnOk, decimal};
ghost use Rattle.topo_tree.specs.Objects.{IsLayer, IsObject};
ghost use Rattle.calc_text.specs.Texts.{has_numbers, label, layer_name, long_name, shown_number};

use byte_text::push_decimal;
use calc_query::Numbering;
use std::alloc::AllocError;
use synth_text::Kind;
use topo_tree::{Layer, Object, Tree};

/// Appends an object's name, a colon and its number.
#[tactic(auto, unfolding(crate::specs::Texts::label))]
pub(crate) fn push_label(
    out: &mut Vec<u8>,
    tree: &Tree,
    numbering: Numbering,
    object: Object,
    number: u32,
) -> Result<(), AllocError>
    requires { IsObject tree.now object }
    ensures { OnOk result (out.new.items ≡ out.old.items ++ label tree.now numbering object number) }
{
    push_name(out, tree, object.layer)?;
    out.push(b':')?;
    push_decimal(
        out,
        u64::from(shown_number(tree, numbering, object, number)),
    )
}

/// The number that is shown of an object: this one, or its physical one where that is asked for and it has one.
pub(crate) fn shown_number(tree: &Tree, numbering: Numbering, object: Object, number: u32) -> u32
    requires { IsObject tree.now object }
    ensures { result ≡ shown_number tree.now numbering object number }
{
    match numbering {
        Numbering::Physical if has_numbers(tree, object.layer) => tree.physical(object),
        _ => number,
    }
}

// Whether the objects of a layer have physical numbers of their own.
fn has_numbers(tree: &Tree, layer: Layer) -> bool
    ensures { result ≡ has_numbers tree.now layer }
{
    match layer {
        Layer::Depth(depth) => depth == tree.depths() - 1,
        Layer::Memory => true,
    }
}

// Appends the name of a layer's objects.
fn push_name(out: &mut Vec<u8>, tree: &Tree, layer: Layer) -> Result<(), AllocError>
    requires { IsLayer tree.now layer }
    ensures { OnOk result (out.new.items ≡ out.old.items ++ layer_name tree.now layer) }
{
    match layer {
        Layer::Depth(depth) => { push_long_name(out, tree.kind(depth), tree.group_number(depth)) }
        Layer::Memory => out.extend_from_slice(Kind::NumaNode.long_name()),
    }
}

// Appends the name of a kind, and of a Group its number.
fn push_long_name(out: &mut Vec<u8>, kind: Kind, number: u32) -> Result<(), AllocError>
    ensures { OnOk result (out.new.items ≡ out.old.items ++ long_name kind number) }
{
    out.extend_from_slice(kind.long_name())?;
    match kind {
        Kind::Group => push_decimal(out, u64::from(number)),
        _ => Ok(()),
    }
}
