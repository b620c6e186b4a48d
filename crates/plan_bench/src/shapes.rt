//! The shape of a lock's callers.
ghost use Rattle.std.specs.Prelude.{◌≡◌, ◌+◌, ◌<◌, ◌≤◌, IfSome};
ghost use Rattle.keep_local.specs.Shapes.{IsWellFormed, callers_of, top_of};

use keep_local::Shape;
use level_harness::shape_of;
use std::alloc::Global;

/// The shape of up to four callers, of whom two stand under each node of the lowest level; the nodes stand under one. The answer is `None`
/// for want of memory, and where there is no level, or more than five.
pub(crate) fn two_by_two(alloc: Global, levels: usize, keep: u32, callers: usize) -> Option<Shape>
    requires { callers ≤ 4 }
    ensures formed { IfSome result IsWellFormed }
    ensures callers { IfSome result (λ s. callers_of s ≡ callers) }
    ensures top { IfSome result (λ s. top_of s + 1 ≡ levels) }
    ensures few { IfSome result (λ s. top_of s < 5) }
{
    if levels == 0 || levels > 5 {
        return None;
    }
    let shape = paired(alloc, levels, keep, callers)?;
    if shape.is_well_formed() {
        Some(shape)
    } else {
        None
    }
}

// The same, of which it isn't known that it is well formed.
fn paired(alloc: Global, levels: usize, keep: u32, callers: usize) -> Option<Shape>
    requires some { 0 < levels }
    requires most { levels ≤ 5 }
    requires callers { callers ≤ 4 }
    ensures callers { IfSome result (λ s. callers_of s ≡ callers) }
    ensures top { IfSome result (λ s. top_of s + 1 ≡ levels) }
{
    let path = &FIRST[..levels];
    let other = if levels == 1 { path } else { &SECOND[..levels] };
    let paths = [path, path, other, other];
    shape_of(alloc, &paths[..callers], &[keep; 4][..levels - 1])
}

/// The path of the first two callers, from the lowest level up.
const FIRST: [u32; 5] = [0; 5];

/// That of the others, where they have a node of their own.
const SECOND: [u32; 5] = [1, 0, 0, 0, 0];
