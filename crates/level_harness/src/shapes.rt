//! Shapes for trials.
ghost use Rattle.std.specs.Prelude.{◌≡◌, length, IfSome};
ghost use Rattle.keep_local.specs.Shapes.{callers_of, top_of};

use keep_local::Shape;
use sequence::Sequence;
use std::alloc::Global;

/// The shape of these paths and keeps. The answer is `None` for want of memory.
pub fn shape_of(alloc: Global, paths: &[&[u32]], keeps: &[u32]) -> Option<Shape>
    ensures callers { IfSome result (λ s. callers_of s ≡ length paths.now) }
    ensures top { IfSome result (λ s. s.keeps ≡ keeps.now) }
{
    let mut list = Vec::new(alloc);
    for path in paths {
        let path = Vec::from_slice(alloc, path).ok()?;
        list.push(Sequence::from_vec(path)).ok()?;
    }
    let keeps = Vec::from_slice(alloc, keeps).ok()?;
    Some(Shape {
        paths: Sequence::from_vec(list),
        keeps: Sequence::from_vec(keeps),
    })
}

/// The same shape once more. The answer is `None` for want of memory.
pub fn copy_of(alloc: Global, shape: &Shape) -> Option<Shape>
    ensures { IfSome result (λ s. s ≡ shape.now) }
{
    let mut paths = Vec::new(alloc);
    for path in shape.paths.as_slice() {
        let path = Vec::from_slice(alloc, path.as_slice()).ok()?;
        paths.push(Sequence::from_vec(path)).ok()?;
    }
    let keeps = Vec::from_slice(alloc, shape.keeps.as_slice()).ok()?;
    Some(Shape {
        paths: Sequence::from_vec(paths),
        keeps: Sequence::from_vec(keeps),
    })
}
