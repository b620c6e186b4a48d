//! A shape once more.
ghost use Rattle.std.specs.Prelude.{◌≡◌, IfOk};

use keep_local::Shape;
use sequence::Sequence;
use std::alloc::{AllocError, Global};

/// The same shape once more: a trail keeps one, and the levels of its lock are made by the other.
pub fn copied_shape(alloc: Global, shape: &Shape) -> Result<Shape, AllocError>
    ensures { IfOk result (λ copy. copy ≡ shape.now) }
{
    let mut paths = Vec::with_capacity(alloc, shape.paths.as_slice().len())?;
    for path in shape.paths.as_slice() {
        paths.push(Sequence::from_vec(Vec::from_slice(alloc, path.as_slice())?))?;
    }
    Ok(Shape {
        paths: Sequence::from_vec(paths),
        keeps: Sequence::from_vec(Vec::from_slice(alloc, shape.keeps.as_slice())?),
    })
}
