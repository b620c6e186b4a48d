//! How callers are made.
ghost use Rattle.std.specs.Prelude.{◌≡◌, ◌<◌, ◌+◌, length, IfSome};
ghost use Rattle.std.specs.List.{All};
ghost use Rattle.std.specs.Arc.{arc_value};
ghost use Rattle.lock_rules.specs.Passes.{IsOf};
ghost use Rattle.lock_rules.specs.Tag.{Tag};
ghost use Rattle.lock_callers.specs.Seen.{AreOf};

use crate::caller::Caller;
use crate::stage::Stage;
use crossbeam_utils::CachePadded;
use lock_rules::{Basic, Plain};
use std::alloc::Global;
use std::sync::Arc;

/// The callers of a new lock, as many as asked, all idle. `None` for want of memory.
pub fn make_callers<B: Basic<Plain<()>> + Drop>(
    alloc: Global,
    recipe: B::Recipe,
    count: u32,
) -> Option<Vec<Caller<B>>>
    requires some { 0 < count }
    ensures count { IfSome result (λ made. length made.items ≡ count) }
    ensures callers { IfSome result (λ made. (lock : Tag) × AreOf lock made.items) }
{
    let (lock, passes) = B::make(alloc, recipe, count, Plain { value: () }).ok()?;
    let lock = Arc::new(alloc, lock).ok()?;
    callers_of(alloc, lock, passes)
}

/// A caller for each pass of the lock.
fn callers_of<B: Basic<Plain<()>> + Drop>(
    alloc: Global,
    lock: Arc<B>,
    mut passes: Vec<B::Pass>,
) -> Option<Vec<Caller<B>>>
    requires own { All (λ p. IsOf (B.name (arc_value lock)) (B.tag (arc_value lock)) (B.Pass.place p)) passes.items }
    ensures count { IfSome result (λ made. length made.items ≡ length passes.items) }
    ensures callers { IfSome result (λ made. AreOf (B.name (arc_value lock)) made.items) }
{
    let mut callers = Vec::new(alloc);
    while let Some(pass) = passes.pop() {
        let lock = Arc::try_clone(&lock).ok()?;
        let stage = CachePadded::new(Stage::Idle(pass));
        callers.push(Caller { lock, stage }).ok()?;
    }
    Some(callers)
}
