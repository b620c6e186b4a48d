//! Physical numbers.
ghost use Rattle.std.specs.Prelude.{◌≡◌, ◌<◌, ◌≤◌, ◌-◌, ◌^◌, ℕ, Some, None, length, min, IfOk, OnOk, IfErr};
ghost use Rattle.std.specs.List.{AllByRecursion};
ghost use Rattle.out_of_memory.specs.Memory.{UnlessMemory};
ghost use Rattle.synth_text.specs.Limits.{pu_limit};
ghost use Rattle.synth_text.specs.Sound.{AreSoundIndexes, IsSoundLoop};
ghost use Rattle.topo_tree.specs.Numbers.{
  number_of,
  numbers_of,
  loops_number,
  loop_product,
  counting_loops,
  counting_loops_in,
  index_count,
  indexes_fault,
};

use crate::fault::BuildFault;
use cpu_set::{CpuSet, LIMIT};
use std::alloc::{AllocError, Global};
use synth_text::{Indexes, Loop};

/// The physical numbers of so many objects, or the first broken rule.
pub fn physical_numbers(
    alloc: Global,
    indexes: &Indexes,
    count: u32,
) -> Result<Vec<u32>, BuildFault>
    requires sound { AreSoundIndexes indexes.now }
    requires few { count ≤ pu_limit }
    ensures numbers { IfOk result (λ numbers. numbers.items ≡ numbers_of indexes.now count) }
    ensures good { OnOk result (indexes_fault indexes.now count ≡ None) }
    ensures fault { IfErr result
        (λ fault. UnlessMemory BuildFault.OutOfMemory fault (indexes_fault indexes.now count ≡ Some fault)) }
{
    let found = capped_count(indexes, count);
    if found != count {
        return Err(BuildFault::IndexCount {
            found,
            wanted: count,
        });
    }
    let loops = counting_loops(alloc, indexes)?;
    let mut seen = CpuSet::empty();
    let mut numbers = Vec::new(alloc);
    for object in 0..count {
        let number = number_of(indexes, &loops, object);
        if number >= LIMIT {
            return Err(BuildFault::IndexRange { number });
        }
        if seen.has(number) {
            return Err(BuildFault::IndexTwice { number });
        }
        seen.with(number);
        numbers.push(number)?;
    }
    Ok(numbers)
}

// How many objects the indexes are for, where there are so many; the greatest u32 where that is over it.
fn capped_count(indexes: &Indexes, count: u32) -> u32
    requires sound { AreSoundIndexes indexes.now }
    ensures { result ≡ min (index_count indexes.now count) (2 ^ 32 - 1) }
{
    match indexes {
        Indexes::Ordered => count,
        Indexes::List(numbers) => numbers.as_slice().len().min(u32::MAX as usize) as u32,
        Indexes::Loops(loops) => capped_product(loops.as_slice()),
    }
}

// The product of the loops' counts; the greatest u32 where it is over that.
fn capped_product(loops: &[Loop]) -> u32
    requires { AllByRecursion IsSoundLoop loops.now }
    ensures { result ≡ min (loop_product loops.now) (2 ^ 32 - 1) }
{
    let mut product: u32 = 1;
    for given in loops {
        product = product.saturating_mul(given.count);
    }
    product
}

// The loops of more than one number. The others add nothing, and a text may have thousands of them.
fn counting_loops(alloc: Global, indexes: &Indexes) -> Result<Vec<Loop>, AllocError>
    ensures { IfOk result (λ loops. loops.items ≡ counting_loops_in indexes.now) }
{
    match indexes {
        Indexes::Ordered | Indexes::List(_) => Ok(Vec::new(alloc)),
        Indexes::Loops(loops) => more_than_one(alloc, loops.as_slice()),
    }
}

// Those loops that have more than one number.
fn more_than_one(alloc: Global, loops: &[Loop]) -> Result<Vec<Loop>, AllocError>
    ensures { IfOk result (λ counting. counting.items ≡ counting_loops loops.now) }
{
    loops
        .iter()
        .filter(|given| given.count > 1)
        .copied()
        .collect(alloc)
}

// The physical number of an object that the indexes are for, of which `loops` are those that count.
fn number_of(indexes: &Indexes, loops: &[Loop], object: u32) -> u32
    requires loops { loops.now ≡ counting_loops_in indexes.now }
    requires sound { AreSoundIndexes indexes.now }
    requires within { object < index_count indexes.now pu_limit }
    requires few { index_count indexes.now pu_limit ≤ pu_limit }
    ensures { result ≡ number_of indexes.now object }
{
    match indexes {
        Indexes::Ordered => object,
        Indexes::List(numbers) => numbers.as_slice()[object as usize],
        Indexes::Loops(_) => loops_number(loops, object),
    }
}

// The physical number that loops give an object.
fn loops_number(loops: &[Loop], object: u32) -> u32
    requires sound { AllByRecursion IsSoundLoop loops.now }
    requires few { loop_product loops.now ≤ pu_limit }
    ensures { result ≡ loops_number loops.now object }
{
    let mut number = 0;
    let mut factor = 1;
    for given in loops {
        number += object / given.step % given.count * factor;
        factor *= given.count;
    }
    number
}
