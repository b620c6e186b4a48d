//! How callers are made.
ghost use Rattle.std.specs.Prelude.{◌≡◌, ℕ, length, slice_get, Some, IfSome};
ghost use Rattle.std.specs.Arc.{arc_value};
ghost use Rattle.clof_compose.specs.Courses.{course_of};
ghost use Rattle.clof_compose.specs.Passes.{IsNumber};
ghost use Rattle.clof_compose.specs.Shares.{IsShareIn};
ghost use Rattle.own_payload.specs.Ready.{IsReady};
ghost use Rattle.level_callers.specs.Seen.{AreFresh, idle_of};
ghost use Rattle.level_callers.specs.Sound.{IsOwn};

use crate::caller::Caller;
use clof_compose::{Composed, Resting};
use crossbeam_utils::CachePadded;
use keep_local::Share;
use lock_callers::Stage;
use own_payload::Noted;
use std::alloc::Global;
use std::sync::Arc;

/// The callers of a new lock, in order, with these passes and these shares. `None` for want of memory.
pub fn make_callers<C: Composed<Noted<()>> + Drop>(
    alloc: Global,
    lock: C,
    passes: Vec<C::Pass>,
    shares: Vec<Share>,
) -> Option<Vec<Caller<C>>>
    requires ready { IsReady C.Pass.rest (C.has lock) (C.sound lock) (C.level lock) (C.count lock) (C.tag lock) passes.items shares.items }
    ensures count { IfSome result (λ made. length made.items ≡ C.count lock) }
    ensures callers { IfSome result (λ made. AreFresh (C.tag lock) made.items) }
{
    let lock = shared(alloc, lock)?;
    callers_of(alloc, lock, passes, shares)
}

// The lock, to be shared.
fn shared<C: Drop>(alloc: Global, lock: C) -> Option<Arc<C>>
    ensures { IfSome result (λ shared. arc_value shared ≡ lock) }
{
    Arc::new(alloc, lock).ok()
}

// The lock once more.
fn once_more<C>(lock: &Arc<C>) -> Option<Arc<C>>
    ensures { IfSome result (λ shared. arc_value shared ≡ arc_value lock.now) }
{
    Arc::try_clone(lock).ok()
}

// A caller for each pass and each share, in order.
fn callers_of<C: Composed<Noted<()>> + Drop>(
    alloc: Global,
    lock: Arc<C>,
    mut passes: Vec<C::Pass>,
    mut shares: Vec<Share>,
) -> Option<Vec<Caller<C>>>
    requires sound { C.sound (arc_value lock) }
    requires lowest { C.level (arc_value lock) ≡ 0 }
    requires passes { (k : ℕ) (p : C.Pass) → slice_get passes.items k ≡ Some p → IsNumber (C.has (arc_value lock))
        (C.level (arc_value lock)) (C.tag (arc_value lock)) k (C.Pass.rest p).context }
    requires shares { (k : ℕ) (s : _) → slice_get shares.items k ≡ Some s → IsShareIn (course_of (C.tag (arc_value lock))) k s }
    requires unused { (k : ℕ) (s : _) → slice_get shares.items k ≡ Some s → s.made ≡ 0 }
    requires many { length shares.items ≡ length passes.items }
    ensures count { IfSome result (λ made. length made.items ≡ length passes.items) }
    ensures callers { IfSome result (λ made. AreFresh (C.tag (arc_value lock)) made.items) }
{
    let mut callers = Vec::new(alloc);
    while let Some(pass) = passes.pop() {
        let Some(share) = shares.pop() else {
            unreachable!()
        };
        let lock = once_more(&lock)?;
        callers.push(Caller::new(lock, pass, share)).ok()?;
    }
    callers.reverse();
    Some(callers)
}

impl<C: Composed<Noted<()>>> Caller<C> {
    // The caller of a lock that has this pass and this share.
    fn new(lock: Arc<C>, pass: C::Pass, share: Share) -> Caller<C>
        requires sound { C.sound (arc_value lock) }
        requires lowest { C.level (arc_value lock) ≡ 0 }
        requires share { IsShareIn (course_of (C.tag (arc_value lock))) share.caller share }
        requires unused { share.made ≡ 0 }
        requires own { IsOwn (C.has (arc_value lock)) share (C.Pass.rest pass).context }
        ensures idle { result ≡ idle_of (C.tag (arc_value lock)) share.quota share.caller }
    {
        let stage = CachePadded::new(Stage::Idle(pass));
        Caller { lock, share, stage }
    }
}
