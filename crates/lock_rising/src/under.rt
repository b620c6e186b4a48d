//! Work under a lock that is ready and has the plan's kinds, of any depth.
ghost use Rattle.std.specs.Prelude.{◌≡◌, ℕ, IfOk};
ghost use Rattle.lock_work.specs.Ready.{IsSet};

use crate::given::Given;
use clof_compose::{Payload, Resting, Waits};
use lock_levels::HasKinds;
use lock_work::{UnderLock, work_under};
use out_of_memory::OutOfMemory;
use std::sync::Wait;
use std::thread::Threads;

/// Work under a lock that is ready and whose levels have the plan's kinds, which is then taken apart.
pub(crate) fn run_under<
    'r,
    P: Payload + Send + Sync,
    Q: Resting + Send,
    K: Sync,
    J: Send + Drop,
    B,
    F,
    G: Sync,
    W: UnderLock<P, Q, K, J, B, F, G> + Send + Sync,
    C: Waits<P, Pass = Q> + HasKinds<P> + Sync + Drop,
    R: Threads + Wait + Sync,
>(given: Given<'r, B, R, G>, lock: C, passes: Vec<Q>) -> Result<F, OutOfMemory>
where
    C::Queue: Send,
    C::Held: Send,
    C::Leave: Send,
    requires set { IsSet Q.rest (C.has lock) (C.sound lock) (C.level lock) (C.count lock) (C.tag lock) (W.dealt given.shared.now)
        given.brought passes.items }
    requires kinds { C.has_kinds lock given.plan.now.kinds 0 }
    ensures { IfOk result (W.left given.entry.shared.now (C.tag lock)) }
{
    let Given {
        rt,
        alloc,
        brought,
        shared,
        ..
    } = given;
    work_under::<P, Q, K, J, B, F, G, W, C, R>(rt, alloc, lock, shared, passes, brought)
}
