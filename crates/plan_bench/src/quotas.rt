//! How often each caller holds the lock.
ghost use Rattle.std.specs.Prelude.{◌≡◌, ◌^◌, ◌<◌, length, sum, IfSome};

use std::alloc::Global;

/// The same quota for each caller. The answer is `None` for want of memory, and where they are 2^32 holds or more in all.
pub(crate) fn equal_quotas(alloc: Global, callers: usize, holds: u32) -> Option<Vec<u32>>
    ensures few { IfSome result (λ _. callers < 2 ^ 32) }
    ensures many { IfSome result (λ q. length q.items ≡ callers) }
    ensures fits { IfSome result (λ q. sum q.items < 2 ^ 32) }
{
    let many = u32::try_from(callers).ok()?;
    holds.checked_mul(many)?;
    Vec::from_elem(alloc, holds, callers).ok()
}
