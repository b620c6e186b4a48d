//! The levels of a lock, made from the top down.
//!
//! Each function adds one level below a lock of any type and hands on what it made; three of them leave a level that is the lowest to
//! `with_lowest`. So none of them has a type of more than one level to compare, and what the checker makes of five levels is five times
//! what it makes of one.
ghost use Rattle.std.specs.Prelude.{◌≡◌, ◌+◌, ◌<◌, ◌≤◌, length, IfOk};
ghost use Rattle.keep_local.specs.Shapes.{callers_of, top_of};
ghost use Rattle.clof_compose.specs.Roots.{IsFit, root_tag, trail_of};
ghost use Rattle.lock_levels.specs.Raised.{IsRaised};
ghost use Rattle.lock_rising.specs.Ready.{MayRise};

use crate::given::Given;
use crate::under::run_under;
use clof_compose::{Payload, Resting, Root, TopPass, Waits};
use lock_levels::{
    HasKinds, LevelOver, LowPass, TopOf, add_below, kind_at, low_passes_are_shared, make_top_of,
    top_passes_are_shared,
};
use lock_rules::{Pass, passes_are_shared};
use lock_work::UnderLock;
use out_of_memory::OutOfMemory;
use std::sync::Wait;
use std::thread::Threads;

/// Makes a lock of one level around a root, and has its callers work under it. A lock that is refused for want of memory ends the work,
/// which gets the root.
pub fn rise_flat<
    'r,
    P: Payload + Send + Sync,
    K: Sync,
    J: Send + Drop,
    B: Drop,
    F,
    G: Sync,
    W: UnderLock<P, TopPass<Pass>, K, J, B, F, G> + Send + Sync,
    R: Threads + Wait + Sync,
>(given: Given<'r, B, R, G>, root: Root<P>) -> Result<F, OutOfMemory>
    requires top { top_of given.shape.now ≡ 0 }
    requires callers { 0 < callers_of given.shape.now }
    requires fit { IsFit P.calls root }
    requires shape { (trail_of root).shape ≡ given.shape.now }
    requires may { MayRise (root_tag P.tag root) given.shape.now given.plan.now.kinds (W.dealt given.shared.now) given.brought }
    ensures { IfOk result (W.left given.entry.shared.now (root_tag P.tag root)) }
{
    passes_are_shared();
    match make_top_of::<P>(given.alloc, given.plan, root, given.shape, 0) {
        Ok((lock, passes)) => {
            run_under::<P, TopPass<Pass>, K, J, B, F, G, W, TopOf<P>, R>(given, lock, passes)
        }
        Err(refused) => W::refused(given.shared, refused.value),
    }
}

/// Makes a lock of two to five levels around a root, and has its callers work under it. A lock that is refused for want of memory ends the
/// work, which gets the root, or one that is as fit and has its tag.
pub fn rise<
    'r,
    P: Payload + Send + Sync,
    K: Sync,
    J: Send + Drop,
    B: Drop,
    F,
    G: Sync,
    W: UnderLock<P, LowPass, K, J, B, F, G> + Send + Sync,
    R: Threads + Wait + Sync,
>(given: Given<'r, B, R, G>, root: Root<P>, top: u32) -> Result<F, OutOfMemory>
    requires top { top_of given.shape.now ≡ top }
    requires some { 0 < top }
    requires most { top ≤ 4 }
    requires callers { 0 < callers_of given.shape.now }
    requires fit { IsFit P.calls root }
    requires shape { (trail_of root).shape ≡ given.shape.now }
    requires may { MayRise (root_tag P.tag root) given.shape.now given.plan.now.kinds (W.dealt given.shared.now) given.brought }
    ensures { IfOk result (W.left given.entry.shared.now (root_tag P.tag root)) }
{
    passes_are_shared();
    top_passes_are_shared();
    match make_top_of::<P>(given.alloc, given.plan, root, given.shape, top) {
        Ok((lock, passes)) => {
            with_second::<P, K, J, B, F, G, W, TopOf<P>, R>(given, lock, passes, top - 1)
        }
        Err(refused) => W::refused(given.shared, refused.value),
    }
}

// Work under a lock with a second level below this one, and with as many more as lie below it. Where that level is the lowest, this is
// left to `with_lowest`: a call that hands on a lock of one more level is what costs the checker most, so each function has one.
fn with_second<
    'r,
    P: Payload + Send + Sync,
    K: Sync,
    J: Send + Drop,
    B: Drop,
    F,
    G: Sync,
    W: UnderLock<P, LowPass, K, J, B, F, G> + Send + Sync,
    H: HasKinds<P> + Waits<P> + Sync + Drop,
    R: Threads + Wait + Sync,
>(given: Given<'r, B, R, G>, high: H, passes: Vec<H::Pass>, level: u32) -> Result<F, OutOfMemory>
where
    H::Pass: Send + Sync,
    H::Queue: Send,
    H::Held: Send,
    H::Leave: Send,
    requires raised { IsRaised H.Pass.rest (H.has high) (H.sound high) (H.level high) (H.count high) (H.tag high) given.shape.now
        (level + 1) (H.tag high) passes.items }
    requires kinds { H.has_kinds high given.plan.now.kinds (level + 1) }
    requires may { MayRise (H.tag high) given.shape.now given.plan.now.kinds (W.dealt given.shared.now) given.brought }
    requires level { level < top_of given.shape.now }
    requires most { level < 4 }
    ensures { IfOk result (W.left given.entry.shared.now (H.tag high)) }
{
    if level == 0 {
        return with_lowest::<P, K, J, B, F, G, W, H, R>(given, high, passes);
    }
    passes_are_shared();
    low_passes_are_shared();
    let kind = kind_at(given.plan, level);
    match add_below::<P, H>(given.alloc, kind, given.shape, level, high, passes) {
        Ok((lock, passes)) => {
            with_third::<P, K, J, B, F, G, W, LevelOver<P, H>, R>(given, lock, passes, level - 1)
        }
        Err(refused) => W::refused(given.shared, refused.value),
    }
}

// The same with a third level.
fn with_third<
    'r,
    P: Payload + Send + Sync,
    K: Sync,
    J: Send + Drop,
    B: Drop,
    F,
    G: Sync,
    W: UnderLock<P, LowPass, K, J, B, F, G> + Send + Sync,
    H: HasKinds<P> + Waits<P> + Sync + Drop,
    R: Threads + Wait + Sync,
>(given: Given<'r, B, R, G>, high: H, passes: Vec<H::Pass>, level: u32) -> Result<F, OutOfMemory>
where
    H::Pass: Send + Sync,
    H::Queue: Send,
    H::Held: Send,
    H::Leave: Send,
    requires raised { IsRaised H.Pass.rest (H.has high) (H.sound high) (H.level high) (H.count high) (H.tag high) given.shape.now
        (level + 1) (H.tag high) passes.items }
    requires kinds { H.has_kinds high given.plan.now.kinds (level + 1) }
    requires may { MayRise (H.tag high) given.shape.now given.plan.now.kinds (W.dealt given.shared.now) given.brought }
    requires level { level < top_of given.shape.now }
    requires most { level < 3 }
    ensures { IfOk result (W.left given.entry.shared.now (H.tag high)) }
{
    if level == 0 {
        return with_lowest::<P, K, J, B, F, G, W, H, R>(given, high, passes);
    }
    passes_are_shared();
    low_passes_are_shared();
    let kind = kind_at(given.plan, level);
    match add_below::<P, H>(given.alloc, kind, given.shape, level, high, passes) {
        Ok((lock, passes)) => {
            with_fourth::<P, K, J, B, F, G, W, LevelOver<P, H>, R>(given, lock, passes, level - 1)
        }
        Err(refused) => W::refused(given.shared, refused.value),
    }
}

// The same with a fourth level.
fn with_fourth<
    'r,
    P: Payload + Send + Sync,
    K: Sync,
    J: Send + Drop,
    B: Drop,
    F,
    G: Sync,
    W: UnderLock<P, LowPass, K, J, B, F, G> + Send + Sync,
    H: HasKinds<P> + Waits<P> + Sync + Drop,
    R: Threads + Wait + Sync,
>(given: Given<'r, B, R, G>, high: H, passes: Vec<H::Pass>, level: u32) -> Result<F, OutOfMemory>
where
    H::Pass: Send + Sync,
    H::Queue: Send,
    H::Held: Send,
    H::Leave: Send,
    requires raised { IsRaised H.Pass.rest (H.has high) (H.sound high) (H.level high) (H.count high) (H.tag high) given.shape.now
        (level + 1) (H.tag high) passes.items }
    requires kinds { H.has_kinds high given.plan.now.kinds (level + 1) }
    requires may { MayRise (H.tag high) given.shape.now given.plan.now.kinds (W.dealt given.shared.now) given.brought }
    requires level { level < top_of given.shape.now }
    requires most { level < 2 }
    ensures { IfOk result (W.left given.entry.shared.now (H.tag high)) }
{
    if level == 0 {
        return with_lowest::<P, K, J, B, F, G, W, H, R>(given, high, passes);
    }
    passes_are_shared();
    low_passes_are_shared();
    let kind = kind_at(given.plan, level);
    match add_below::<P, H>(given.alloc, kind, given.shape, level, high, passes) {
        Ok((lock, passes)) => {
            with_lowest::<P, K, J, B, F, G, W, LevelOver<P, H>, R>(given, lock, passes)
        }
        Err(refused) => W::refused(given.shared, refused.value),
    }
}

// Work under a lock with one level more below this one, the lowest.
fn with_lowest<
    'r,
    P: Payload + Send + Sync,
    K: Sync,
    J: Send + Drop,
    B: Drop,
    F,
    G: Sync,
    W: UnderLock<P, LowPass, K, J, B, F, G> + Send + Sync,
    H: HasKinds<P> + Waits<P> + Sync + Drop,
    R: Threads + Wait + Sync,
>(given: Given<'r, B, R, G>, high: H, passes: Vec<H::Pass>) -> Result<F, OutOfMemory>
where
    H::Pass: Send + Sync,
    H::Queue: Send,
    H::Held: Send,
    H::Leave: Send,
    requires raised { IsRaised H.Pass.rest (H.has high) (H.sound high) (H.level high) (H.count high) (H.tag high) given.shape.now
        1 (H.tag high) passes.items }
    requires kinds { H.has_kinds high given.plan.now.kinds 1 }
    requires may { MayRise (H.tag high) given.shape.now given.plan.now.kinds (W.dealt given.shared.now) given.brought }
    requires top { 0 < top_of given.shape.now }
    ensures { IfOk result (W.left given.entry.shared.now (H.tag high)) }
{
    passes_are_shared();
    low_passes_are_shared();
    let kind = kind_at(given.plan, 0);
    match add_below::<P, H>(given.alloc, kind, given.shape, 0, high, passes) {
        Ok((lock, passes)) => {
            run_under::<P, LowPass, K, J, B, F, G, W, LevelOver<P, H>, R>(given, lock, passes)
        }
        Err(refused) => W::refused(given.shared, refused.value),
    }
}
