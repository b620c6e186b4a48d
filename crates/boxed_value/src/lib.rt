//! A value behind a pointer, which contracts see as the value itself.
#![tactic(auto)]

ghost use Rattle.std.specs.Prelude.{◌≡◌, IfOk, IfErr};
ghost use Rattle.std.specs.Borrow.{Lends, sem};
ghost use Rattle.boxed_value.specs.contracts.Boxed.{the_row};

use std::alloc::Global;
use std::marker::Model;

/// A value on the heap, so that what contains it stays small however large the value is.
#[derive(Drop)]
pub struct Boxed<T> {
    inner: Box<T>,
}

impl<T> Model for Boxed<T> {
    ghost use Rattle.std.specs.Prelude.{◌≡◌};

    ghost Value = { T };

    ghost coded = { T.code };

    ghost view = { λ boxed. boxed.inner.value };
}

impl<T> Boxed<T> {
    /// Puts a value on the heap. Where there is no memory it comes back.
    pub fn new(alloc: Global, value: T) -> Result<Boxed<T>, T>
        ensures boxed { IfOk result (λ boxed. boxed ≡ value) }
        ensures refused { IfErr result (λ back. back ≡ value) }
    {
        match Box::new(alloc, value) {
            Ok(inner) => Ok(Boxed { inner }),
            Err(failed) => Err(failed.value),
        }
    }

    /// The value.
    pub fn get(&self) -> &T
        ensures { result.now ≡ self.now }
    {
        &self.inner
    }

    /// The value, to be changed where it is.
    pub fn get_mut(&mut self) -> &mut T
        ensures* writes_back { sem 𝓛 (Lends (the_row T.row) T.row self.entry result (λ value. value)) }
        ensures value { result.now ≡ self.old }
    {
        &mut self.inner
    }

    /// Puts another value in the place of the value, which is the answer.
    pub fn replace(&mut self, value: T) -> T
        ensures taken { result ≡ self.old }
        ensures put { self.new ≡ value }
    {
        Box::replace(&mut self.inner, value)
    }

    /// The value, out of the heap.
    pub fn into_inner(self) -> T
        ensures { result ≡ self }
    {
        Box::into_inner(self.inner)
    }
}
