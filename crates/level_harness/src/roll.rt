//! What the callers of the trials do while they hold the lock.
ghost use Rattle.std.specs.Prelude.{◌≡◌, ◌+◌, ◌<◌, ◌≤◌, ◌++◌, ◌∷◌, [], length, vec_capacity, IfOk};
ghost use Rattle.lock_rules.specs.Tag.{leaf};
ghost use Rattle.clof_compose.specs.Roots.{payload_of, trail_of};

use boxed_value::Boxed;
use clof_compose::{Payload, Root};
use out_of_memory::OutOfMemory;
use std::alloc::Global;

/// A payload whose calls note their callers, for which it has room from the start. It is one pointer, since it moves with every hold. Its
/// tag is how many it has room for.
#[derive(Drop)]
pub struct Roll {
    pub callers: Boxed<Vec<u32>>,
}

impl Roll {
    /// A roll without calls, with room for as many.
    pub fn reserve(alloc: Global, calls: usize) -> Result<Roll, OutOfMemory>
        ensures empty { IfOk result (λ r. r.callers.items ≡ []) }
        ensures room { IfOk result (λ r. calls ≤ vec_capacity r.callers) }
    {
        let room = Vec::with_capacity(alloc, calls)?;
        match Boxed::new(alloc, room) {
            Ok(callers) => Ok(Roll { callers }),
            Err(_) => Err(OutOfMemory),
        }
    }
}

impl Payload for Roll {
    ghost calls = { λ r. r.callers.items };

    ghost tag = { λ r. leaf (vec_capacity r.callers) };
}

/// Notes a call of this caller.
pub(crate) fn call(root: &mut Root<Roll>, caller: u32)
    requires room { length (payload_of root.old).callers.items < vec_capacity (payload_of root.old).callers }
    ensures trail { trail_of root.new ≡ trail_of root.old }
    ensures noted { (payload_of root.new).callers.items ≡ (payload_of root.old).callers.items ++ caller ∷ [] }
    ensures room { vec_capacity (payload_of root.new).callers ≡ vec_capacity (payload_of root.old).callers }
{
    root.payload_mut().callers.get_mut().push_reserved(caller);
}
