//! Sizes, printed.
ghost use Rattle.std.specs.Prelude.{◌≡◌, ◌<◌, ◌++◌, OnOk};
ghost use Rattle.topo_tree.specs.Sizes.{unit_of, size_text};

use byte_text::push_decimal;
use std::alloc::AllocError;

const KIB: u64 = 1 << 10;

const MIB: u64 = 1 << 20;

const GIB: u64 = 1 << 30;

const TIB: u64 = 1 << 40;

/// Appends a size as a whole number of the greatest unit that divides it.
#[tactic(auto, unfolding(crate::specs::Sizes::size_text))]
pub fn push_size(out: &mut Vec<u8>, size: u64) -> Result<(), AllocError>
    ensures { OnOk result (out.new.items ≡ out.old.items ++ size_text size) }
{
    let (unit, name) = unit_of(size);
    push_decimal(out, size / unit)?;
    out.extend_from_slice(name)
}

// The greatest unit that divides a size, with its name; B for 0.
fn unit_of(size: u64) -> (u64, &'static [u8])
    ensures unit { result.0 ≡ (unit_of size).0 }
    ensures name { result.1.now ≡ (unit_of size).1 }
    ensures some { 0 < result.0 }
{
    if size == 0 {
        (1, b"B")
    } else if size % TIB == 0 {
        (TIB, b"TiB")
    } else if size % GIB == 0 {
        (GIB, b"GiB")
    } else if size % MIB == 0 {
        (MIB, b"MiB")
    } else if size % KIB == 0 {
        (KIB, b"KiB")
    } else {
        (1, b"B")
    }
}
