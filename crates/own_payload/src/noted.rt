//! The payload.
ghost use Rattle.std.specs.Prelude.{◌≡◌, [], ◌∷◌, ◌++◌};
ghost use Rattle.lock_rules.specs.Tag.{leaf};

use crate::calls::Calls;
use clof_compose::Payload;

/// Any value as the payload of a composed lock: a holder may change it at will, and notes its call.
#[derive(Drop)]
pub struct Noted<T> {
    pub value: T,
    pub calls: Calls,
}

impl<T> Noted<T> {
    /// A value that nobody has called for.
    pub fn new(value: T) -> Noted<T>
        ensures value { result.value ≡ value }
        ensures uncalled { result.calls.callers ≡ [] }
    {
        Noted {
            value,
            calls: Calls::new(),
        }
    }

    /// Notes a call of this caller, which a release asks for once in each hold.
    pub fn note(&mut self, caller: u32)
        ensures value { self.new.value ≡ self.old.value }
        ensures noted { self.new.calls.callers ≡ self.old.calls.callers ++ caller ∷ [] }
    {
        self.calls = self.calls.and(caller);
    }
}

impl<T: Drop> Payload for Noted<T> {
    ghost calls = { λ n. n.calls.callers };

    ghost tag = { λ _. leaf 0 };
}
