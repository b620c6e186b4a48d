//! The physical numbers of a description's objects.
ghost use Rattle.std.specs.Prelude.{◌≡◌, Some, None, IfOk, OnOk, IfErr};
ghost use Rattle.out_of_memory.specs.Memory.{UnlessMemory};
ghost use Rattle.synth_text.specs.Rules.{pu_count, node_count};
ghost use Rattle.synth_text.specs.Sound.{IsSound};
ghost use Rattle.topo_tree.specs.Numbers.{indexes_fault};
ghost use Rattle.topo_tree.specs.Building.{pu_indexes, node_indexes, pu_numbers, node_numbers};

use crate::counts::count_down_to;
use crate::fault::BuildFault;
use crate::numbers::physical_numbers;
use std::alloc::Global;
use synth_text::Description;

/// The physical numbers of the nodes of memory, or the first broken rule.
#[tactic(auto, unfolding(crate::specs::Building::node_numbers))]
pub fn node_numbers(alloc: Global, description: &Description) -> Result<Vec<u32>, BuildFault>
    requires { IsSound description.now }
    ensures numbers { IfOk result (λ numbers. numbers.items ≡ node_numbers description.now) }
    ensures good { OnOk result (indexes_fault (node_indexes description.now.memory)
        (node_count description.now.levels description.now.memory) ≡ None) }
    ensures fault { IfErr result (λ fault. UnlessMemory BuildFault.OutOfMemory fault
        (indexes_fault (node_indexes description.now.memory) (node_count description.now.levels description.now.memory) ≡ Some fault)) }
{
    match &description.memory {
        None => Ok(Vec::new(alloc)),
        Some(memory) => {
            let count = count_down_to(description.levels.as_slice(), memory.above as usize);
            physical_numbers(alloc, &memory.indexes, count)
        }
    }
}

/// The physical numbers of the PUs, or the first broken rule.
#[tactic(auto, unfolding(crate::specs::Building::pu_numbers))]
pub fn pu_numbers(alloc: Global, description: &Description) -> Result<Vec<u32>, BuildFault>
    requires { IsSound description.now }
    ensures numbers { IfOk result (λ numbers. numbers.items ≡ pu_numbers description.now) }
    ensures good { OnOk result (indexes_fault (pu_indexes description.now) (pu_count description.now) ≡ None) }
    ensures fault { IfErr result (λ fault. UnlessMemory BuildFault.OutOfMemory fault
        (indexes_fault (pu_indexes description.now) (pu_count description.now) ≡ Some fault)) }
{
    let levels = description.levels.as_slice();
    let last = &levels[levels.len() - 1];
    let count = count_down_to(levels, levels.len());
    physical_numbers(alloc, &last.indexes, count)
}
