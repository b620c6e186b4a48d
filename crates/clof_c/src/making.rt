//! How the callers of a lock are made.
ghost use Rattle.std.specs.Prelude.{map};
ghost use Rattle.lock_handles.specs.declared.any.AnyCaller.TheVariants as TheVariants;
ghost use Rattle.clof_c.specs.Codes.{AnswersMaking};

use crate::codes::making_code;
use lock_handles::{ClofCaller, Kind, make};
use std::alloc::Global;

/// Makes a Ticket lock, and a caller of it for each of the handles.
#[unsafe(no_mangle)]
pub extern "C" fn clof_make_ticket(alloc: Global, handles: &mut [ClofCaller]) -> u32
    ensures answers { AnswersMaking (λ c. TheVariants.Ticket c) (map (λ h. h.held) handles.old) (map (λ h. h.held) handles.new) result }
{
    making_code(make(alloc, Kind::Ticket, handles))
}

/// Makes an MCS lock, and a caller of it for each of the handles.
#[unsafe(no_mangle)]
pub extern "C" fn clof_make_mcs(alloc: Global, handles: &mut [ClofCaller]) -> u32
    ensures answers { AnswersMaking (λ c. TheVariants.Mcs c) (map (λ h. h.held) handles.old) (map (λ h. h.held) handles.new) result }
{
    making_code(make(alloc, Kind::Mcs, handles))
}

/// Makes a CLH lock, and a caller of it for each of the handles.
#[unsafe(no_mangle)]
pub extern "C" fn clof_make_clh(alloc: Global, handles: &mut [ClofCaller]) -> u32
    ensures answers { AnswersMaking (λ c. TheVariants.Clh c) (map (λ h. h.held) handles.old) (map (λ h. h.held) handles.new) result }
{
    making_code(make(alloc, Kind::Clh, handles))
}

/// Makes a Hemlock lock, and a caller of it for each of the handles.
#[unsafe(no_mangle)]
pub extern "C" fn clof_make_hemlock(alloc: Global, handles: &mut [ClofCaller]) -> u32
    ensures answers { AnswersMaking (λ c. TheVariants.Hemlock c) (map (λ h. h.held) handles.old) (map (λ h. h.held) handles.new) result }
{
    making_code(make(alloc, Kind::Hemlock, handles))
}
