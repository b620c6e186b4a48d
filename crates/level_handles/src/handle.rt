//! The handle of a caller: what a C program keeps of it.
ghost use Rattle.std.specs.Prelude.{◌≡◌};
ghost use Rattle.std.specs.Coded.{coded_option};
ghost use Rattle.std.specs.Option.{MatchOption};
ghost use Rattle.std.specs.declared.option.Option.{Option as Maybe};
ghost use Rattle.std.specs.declared.option.Option.TheVariants.{None, Some};
ghost use Rattle.level_handles.specs.contracts.any_depth.AnyDepth.{the_row as caller_row};
ghost use Rattle.lock_handles.specs.Handles.{kept};

use crate::any_depth::AnyDepth;
use loose_box::Loose;
use std::alloc::Global;
use std::marker::Model;
use std::ptr::null_mut;

/// Null, or the pointer of a caller's box, which this handle alone owns.
#[repr(C)]
pub struct ClofComposedCaller {
    at: *mut u8,
    alloc: Global,
    pub ghost held: { Maybe caller_row.Denot } by { coded_option caller_row.coded },
}

impl Model for ClofComposedCaller {
    ghost also_owns = { λ h. kept caller_row h.alloc h.at h.held };
}

impl ClofComposedCaller {
    /// A handle with no caller.
    pub fn empty(alloc: Global) -> ClofComposedCaller
        ensures empty { result.held ≡ None }
    {
        ClofComposedCaller {
            at: null_mut(),
            alloc,
        }
    }

    fn of_loose(value: Loose<AnyDepth, Global>) -> ClofComposedCaller
        ensures full { result.held ≡ Some value.value }
    {
        let Loose { at, alloc } = value;
        ClofComposedCaller {
            at: at as *mut u8,
            alloc,
        }
    }

    fn into_loose(self) -> Option<Loose<AnyDepth, Global>>
        ensures same { MatchOption result (self.held ≡ None) (λ l. self.held ≡ Some l.value) }
    {
        let ClofComposedCaller { at, alloc } = self;
        if at.is_null() {
            None
        } else {
            Some(Loose {
                at: at as *mut AnyDepth,
                alloc,
            })
        }
    }

    /// A handle of this caller.
    pub fn full(caller: Box<AnyDepth>) -> ClofComposedCaller
        ensures full { result.held ≡ Some caller.value }
    {
        across(ClofComposedCaller::of_loose(Loose::of(caller)))
    }

    /// The caller, where there is one.
    pub fn into_box(self) -> Option<Box<AnyDepth>>
        ensures same { MatchOption result (self.held ≡ None) (λ b. self.held ≡ Some b.value) }
    {
        match self.into_loose() {
            None => None,
            Some(loose) => Some(loose.into_box()),
        }
    }
}

impl Drop for ClofComposedCaller {
    fn drop(self) {
        drop(self.into_box());
    }
}

unsafe impl Send for ClofComposedCaller {}

/// What may go to another thread. Every handle with a caller comes through here.
fn across<T: Send>(value: T) -> T
    ensures same { result ≡ value }
{
    value
}
