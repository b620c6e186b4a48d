//! Parts of a printed line.
ghost use Rattle.std.specs.Prelude.{◌≡◌, ◌++◌, ◌∷◌, ◌*◌, [], codes, decimal, replicate, OnOk};
ghost use Rattle.topo_tree.specs.Lines.{short_name, detail, node_detail};

use crate::sizes::push_size;
use byte_text::push_decimal;
use std::alloc::AllocError;
use synth_text::Kind;

/// Appends two spaces for each depth.
pub fn push_indent(out: &mut Vec<u8>, depth: u32) -> Result<(), AllocError>
    ensures { OnOk result (out.new.items ≡ out.old.items ++ replicate (2 * depth) 32) }
{
    for _ in 0..depth {
        out.push(b' ')?;
        out.push(b' ')?;
    }
    Ok(())
}

/// Appends the short name of a kind; a Group has its level's number behind it.
pub fn push_short_name(out: &mut Vec<u8>, kind: Kind, number: u32) -> Result<(), AllocError>
    ensures { OnOk result (out.new.items ≡ out.old.items ++ short_name kind number) }
{
    out.extend_from_slice(kind.short_name())?;
    match kind {
        Kind::Group => push_decimal(out, u64::from(number)),
        _ => Ok(()),
    }
}

/// Appends an object's index.
pub fn push_index(out: &mut Vec<u8>, index: u32) -> Result<(), AllocError>
    ensures { OnOk result (out.new.items ≡ out.old.items ++ (codes " L#" ++ decimal index)) }
{
    out.extend_from_slice(b" L#")?;
    push_decimal(out, u64::from(index))
}

/// Appends what stands behind an object's index.
pub fn push_detail(
    out: &mut Vec<u8>,
    kind: Kind,
    physical: u32,
    size: Option<u64>,
) -> Result<(), AllocError>
    ensures { OnOk result (out.new.items ≡ out.old.items ++ detail kind physical size) }
{
    match (kind, size) {
        (Kind::Pu, _) => push_node_detail(out, physical, None),
        (_, None) => Ok(()),
        (_, Some(size)) => {
            out.extend_from_slice(b" (")?;
            push_size(out, size)?;
            out.extend_from_slice(b")")
        }
    }
}

/// Appends what stands behind the index of a NUMANode.
pub fn push_node_detail(
    out: &mut Vec<u8>,
    physical: u32,
    size: Option<u64>,
) -> Result<(), AllocError>
    ensures { OnOk result (out.new.items ≡ out.old.items ++ node_detail physical size) }
{
    out.extend_from_slice(b" (P#")?;
    push_decimal(out, u64::from(physical))?;
    if let Some(size) = size {
        out.extend_from_slice(b" ")?;
        push_size(out, size)?;
    }
    out.extend_from_slice(b")")
}
