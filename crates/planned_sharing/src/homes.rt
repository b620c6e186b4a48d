//! Where callers are at home.
ghost use Rattle.std.specs.Prelude.{◌≡◌, IfOk, map, slice_index};
ghost use Rattle.keep_local.specs.Shapes.{IsWellFormed};

use keep_local::Shape;
use std::alloc::{AllocError, Global};

/// The node of each caller at the lowest level, where it is at home.
pub(crate) fn homes(alloc: Global, shape: &Shape) -> Result<Vec<u32>, AllocError>
    requires formed { IsWellFormed shape.now }
    ensures { IfOk result (λ homes. homes.items ≡ map (λ path. slice_index path 0) shape.now.paths) }
{
    let mut homes = Vec::with_capacity(alloc, shape.paths.as_slice().len())?;
    for path in shape.paths.as_slice() {
        homes.push(path.as_slice()[0])?;
    }
    Ok(homes)
}
