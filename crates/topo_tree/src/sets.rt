//! The sets of objects.
ghost use Rattle.std.specs.Prelude.{◌≡◌, ◌<◌, ◌≤◌, ◌+◌, ◌*◌, ◌/◌, ℕ, length, map, All, IfOk};
ghost use Rattle.std.specs.List.{AllByRecursion};
ghost use Rattle.cpu_set.specs.Sets.{set_limit, has, numbers_where};
ghost use Rattle.cpu_set.specs.Tests.{meets, is_inside};
ghost use Rattle.synth_text.specs.Limits.{pu_limit};
ghost use Rattle.synth_text.specs.Rules.{arities, product};
ghost use Rattle.topo_tree.specs.Objects.{IsObject};
ghost use Rattle.topo_tree.specs.Coverage.{set_of};
ghost use Rattle.topo_tree.specs.TableLists.{sets_covered, depth_sets};

use crate::layer::{Layer, Object};
use crate::tree::Tree;
use cpu_set::CpuSet;
use std::alloc::{AllocError, Global};
use synth_text::Level;

impl Tree {
    /// The numbers of the PUs that an object covers. A NUMANode has the set of the object that carries it.
    pub fn set_of(&self, object: Object) -> CpuSet
        requires { IsObject self.now object }
        ensures { result ≡ set_of self.now object.layer object.index }
    {
        numbers_set(self.covered(object))
    }

    /// Whether an object has a PU of a set.
    pub fn meets(&self, object: Object, set: &CpuSet) -> bool
        requires { IsObject self.now object }
        ensures { result ≡ meets (set_of self.now object.layer object.index) set.now }
    {
        some_in(self.covered(object), set)
    }

    /// Whether a set has all PUs of an object.
    pub fn inside(&self, object: Object, set: &CpuSet) -> bool
        requires { IsObject self.now object }
        ensures { result ≡ is_inside (set_of self.now object.layer object.index) set.now }
    {
        all_in(self.covered(object), set)
    }

    // The physical numbers of the PUs that an object covers, by their positions.
    fn covered(&self, object: Object) -> &[u32]
        requires { IsObject self.now object }
        ensures set { numbers_where (has result.now) ≡ set_of self.now object.layer object.index }
        ensures limit { All (λ number. number < set_limit) result.now }
    {
        let numbers = self.pus();
        let count = self.count(Layer::Depth(self.depth_of(object.layer)));
        let width = numbers.len() / count as usize;
        let first = object.index as usize * width;
        &numbers[first..first + width]
    }
}

// Whether some of these numbers is in a set.
fn some_in(numbers: &[u32], set: &CpuSet) -> bool
    ensures { result ≡ meets numbers.now set.now }
{
    for number in numbers {
        if set.has(*number) {
            return true;
        }
    }
    false
}

// Whether all of these numbers are in a set.
fn all_in(numbers: &[u32], set: &CpuSet) -> bool
    ensures { result ≡ is_inside numbers.now set.now }
{
    for number in numbers {
        if !set.has(*number) {
            return false;
        }
    }
    true
}

/// The sets of each depth's objects over PUs with these numbers.
pub fn depth_sets(
    alloc: Global,
    levels: &[Level],
    numbers: &[u32],
) -> Result<Vec<Vec<CpuSet>>, AllocError>
    requires some_each { AllByRecursion (λ level. 1 ≤ level.arity) levels.now }
    requires pus { length numbers.now ≡ product (arities levels.now) }
    requires few { length numbers.now ≤ pu_limit }
    requires limit { All (λ number. number < set_limit) numbers.now }
    ensures { IfOk result (λ sets. map (λ depth. depth.items) sets.items ≡ depth_sets numbers.now levels.now) }
{
    let mut count: usize = 1;
    let mut sets = Vec::new(alloc);
    sets.push(sets_covered(alloc, count, numbers)?)?;
    for level in levels {
        count *= level.arity as usize;
        sets.push(sets_covered(alloc, count, numbers)?)?;
    }
    Ok(sets)
}

// The sets of so many objects, which all cover as many PUs.
fn sets_covered(alloc: Global, count: usize, numbers: &[u32]) -> Result<Vec<CpuSet>, AllocError>
    requires some { 0 < count }
    requires whole { count * (length numbers.now / count) ≡ length numbers.now }
    requires few { length numbers.now ≤ pu_limit }
    requires limit { All (λ number. number < set_limit) numbers.now }
    ensures { IfOk result (λ sets. sets.items ≡ sets_covered numbers.now count) }
{
    let width = numbers.len() / count;
    let mut sets = Vec::with_capacity(alloc, count)?;
    for index in 0..count {
        sets.push(numbers_set(&numbers[index * width..(index + 1) * width]))?;
    }
    Ok(sets)
}

// The set of these numbers.
fn numbers_set(numbers: &[u32]) -> CpuSet
    requires { All (λ number. number < set_limit) numbers.now }
    ensures { result ≡ numbers_where (has numbers.now) }
{
    let mut set = CpuSet::empty();
    for number in numbers {
        set.with(*number);
    }
    set
}
