//! How the callers of a composed lock are made.
ghost use Rattle.std.specs.Prelude.{map};
ghost use Rattle.lock_setting.specs.Settings.{of};
ghost use Rattle.clof_c.specs.Composed.{AnswersComposedMaking};

use crate::composed_codes::{ClofNumbers, NO_NUMBERS, composed_made_code, fault_answer};
use level_handles::{ClofComposedCaller, make};
use lock_setting::read_setting;
use std::alloc::Global;

/// Makes a composed lock of one to five levels by a plan on the machine of a description, and a caller of it on each of the PUs, in order,
/// for each of the handles. Where the texts are refused, the numbers tell where.
#[unsafe(no_mangle)]
pub extern "C" fn clof_make_composed_of(
    alloc: Global,
    description: &[u8],
    levels: &[u8],
    locks: &[u8],
    keeps: &[u8],
    pus: &[u32],
    handles: &mut [ClofComposedCaller],
    numbers: &mut ClofNumbers,
) -> u32
    ensures answers { AnswersComposedMaking (of description.now levels.now locks.now keeps.now pus.now) (map (λ h. h.held) handles.old)
        (map (λ h. h.held) handles.new) numbers.new result }
{
    match read_setting(alloc, description, levels, locks, keeps, pus) {
        Ok(setting) => {
            *numbers = NO_NUMBERS;
            composed_made_code(make(alloc, &setting.plan, &setting.shape, handles))
        }
        Err(fault) => {
            let (code, told) = fault_answer(fault);
            *numbers = told;
            code
        }
    }
}
