//! Holds of a lock whose trail keeps its turns in memory.
ghost use Rattle.std.specs.Prelude.{◌≤◌};

use crate::quotas::equal_quotas;
use crate::shapes::two_by_two;
use level_harness::Roll;
use lock_levels::LockKind;
use std::alloc::Global;
use std::sync::Wait;
use std::thread::Threads;
use tree_harness::{Outcome, Trial, try_lock};

/// Up to four callers hold a lock of these kinds, each in a thread of its own and equally often. The answer is `None` for
/// want of memory, where the holds are 2^32 or more in all, and where there is no level, more than five, or no caller.
pub(crate) fn hold_recorded<R: Threads + Wait + Sync>(
    rt: &R,
    alloc: Global,
    kinds: &[LockKind],
    keep: u32,
    threads: usize,
    holds: u32,
) -> Option<Outcome<Roll>>
    requires { threads ≤ 4 }
{
    let quotas = equal_quotas(alloc, threads, holds)?;
    let shape = two_by_two(alloc, kinds.len(), keep, threads)?;
    try_lock(rt, alloc, kinds, shape, &quotas, Trial::Hold)
}
