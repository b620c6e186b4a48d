//! How long the levels of a plan keep the lock above.
ghost use Rattle.std.specs.Prelude.{◌≡◌, ◌<◌, ◌≤◌, ◌^◌, None, Some, IfOk, IfErr, length};
ghost use Rattle.out_of_memory.specs.Memory.{UnlessMemory};
ghost use Rattle.lock_select.specs.Texts.{keep_of};
ghost use Rattle.lock_plan.specs.Lists.{comma_list};
ghost use Rattle.lock_plan.specs.Plans.{AreKeeps, keep_fault, keeps_by};

use crate::lists::{Entries, ListFault, read_list};
use lock_select::read_keep;
use run_faults::PlanFault;
use std::alloc::{AllocError, Global};

// Reads keeps.
struct Keeps;

impl Entries for Keeps {
    type Entry = u32;

    ghost says = { λ _ piece. keep_of piece };

    fn entry(&self, piece: &[u8]) -> Option<u32> {
        read_keep(piece).ok()
    }
}

/// The keeps of the levels below the top of so many levels: one number for each of them, or one for all.
pub(crate) fn read_keeps(alloc: Global, levels: usize, text: &[u8]) -> Result<Vec<u32>, PlanFault>
    requires some { 1 ≤ levels }
    requires few { levels < 2 ^ 32 }
    requires text { length text.now < 2 ^ 32 }
    ensures keeps { IfOk result (λ keeps. AreKeeps levels text.now keeps.items) }
    ensures refused { IfErr result
        (λ fault. UnlessMemory PlanFault.OutOfMemory fault (keep_fault levels (comma_list text.now) ≡ Some fault)) }
{
    let given = match read_list(alloc, &Keeps, b',', text) {
        Ok(given) => given,
        Err(ListFault::Unknown { place }) => return Err(PlanFault::KeepRange { place }),
        Err(ListFault::OutOfMemory) => return Err(PlanFault::OutOfMemory),
    };
    if given.len() != 1 && given.len() != levels - 1 {
        return Err(PlanFault::Lengths {
            levels: levels as u32,
            given: given.len() as u32,
        });
    }
    Ok(keeps_by(alloc, levels, given)?)
}

// The keeps by the numbers that are given: a lone one is that of each level below the top.
fn keeps_by(alloc: Global, levels: usize, given: Vec<u32>) -> Result<Vec<u32>, AllocError>
    requires { 1 ≤ levels }
    ensures { IfOk result (λ keeps. keeps.items ≡ keeps_by levels given.items) }
{
    if given.len() == 1 {
        Vec::from_elem(alloc, given[0], levels - 1)
    } else {
        Ok(given)
    }
}
