//! The machine, the plan and the shape that texts tell.
ghost use Rattle.std.specs.Prelude.{◌≡◌, ◌+◌, ◌<◌, ◌≤◌, ◌^◌, true, false, IfOk, IfErr, IfSome, length, All};
ghost use Rattle.std.specs.declared.option.Option.TheVariants.{None as Nothing};
ghost use Rattle.synth_text.specs.Rules.{pu_count};
ghost use Rattle.keep_local.specs.Shapes.{IsWellFormed, callers_of, top_of};
ghost use Rattle.lock_plan.specs.Plans.{IsPlan, IsPlanFor};
ghost use Rattle.lock_setting.specs.Settings.{IsMachine, IsSettingOf, IsStray, Refuses, RefusesMachine, RefusesPlan, locks_given, of};

use crate::fault::SettingFault;
use keep_local::Shape;
use lock_plan::{Plan, PlanFault};
use out_of_memory::OutOfMemory;
use std::alloc::Global;
use synth_text::{SynthFault, read};
use topo_tree::{BuildFault, Layer, Tree};

/// What a composed lock is made of: the plan of its levels, and the shape of its callers.
#[derive(Debug, Drop)]
pub struct Setting {
    pub plan: Plan,
    pub shape: Shape,
}

/// The plan of the levels, locks and keeps on the machine of a description, and its shape for callers on these PUs, by their logical
/// numbers. Where no locks are named, each level has MCS. The texts are refused for the first rule that they break (`SettingFault`).
pub fn read_setting(
    alloc: Global,
    description: &[u8],
    levels: &[u8],
    locks: &[u8],
    keeps: &[u8],
    pus: &[u32],
) -> Result<Setting, SettingFault>
    ensures setting { IfOk result (λ s. IsSettingOf (of description.now levels.now locks.now keeps.now pus.now) s.plan s.shape) }
    ensures kinds { IfOk result (λ s. length s.plan.kinds ≡ top_of s.shape + 1) }
    ensures formed { IfOk result (λ s. IsWellFormed s.shape) }
    ensures callers { IfOk result (λ s. callers_of s.shape ≡ length pus.now) }
    ensures refused { IfErr result (Refuses (of description.now levels.now locks.now keeps.now pus.now)) }
{
    if is_long(levels) || is_long(locks) || is_long(keeps) {
        return Err(SettingFault::TooLong);
    }
    let tree = machine(alloc, description)?;
    let plan = plan_on(alloc, &tree, levels, locks, keeps)?;
    if let Some(place) = first_stray(pu_count(&tree), pus) {
        return Err(SettingFault::NoPu { place });
    }
    match plan.shape(alloc, &tree, pus) {
        Ok(shape) => Ok(Setting { plan, shape }),
        Err(OutOfMemory) => Err(SettingFault::OutOfMemory),
    }
}

// Whether a text has 2^32 bytes or more.
fn is_long(text: &[u8]) -> bool
    ensures short { result ≡ false → length text.now < 2 ^ 32 }
    ensures long { result ≡ true → 2 ^ 32 ≤ length text.now }
{
    text.len() > u32::MAX as usize
}

// The machine that a text describes.
fn machine(alloc: Global, text: &[u8]) -> Result<Tree, SettingFault>
    ensures machine { IfOk result (IsMachine text.now) }
    ensures refused { IfErr result (RefusesMachine text.now) }
{
    let description = match read(alloc, text) {
        Ok(description) => description,
        Err(SynthFault::OutOfMemory) => return Err(SettingFault::OutOfMemory),
        Err(fault) => return Err(SettingFault::Description(fault)),
    };
    match Tree::build(alloc, description) {
        Ok(tree) => Ok(tree),
        Err(BuildFault::OutOfMemory) => Err(SettingFault::OutOfMemory),
        Err(fault) => Err(SettingFault::Numbers(fault)),
    }
}

// The plan that three texts tell on a machine.
fn plan_on(
    alloc: Global,
    tree: &Tree,
    levels: &[u8],
    locks: &[u8],
    keeps: &[u8],
) -> Result<Plan, SettingFault>
    requires levels { length levels.now < 2 ^ 32 }
    requires locks { length locks.now < 2 ^ 32 }
    requires keeps { length keeps.now < 2 ^ 32 }
    ensures plan { IfOk result (IsPlan tree.now levels.now (locks_given locks.now) keeps.now) }
    ensures usable { IfOk result (IsPlanFor tree.now) }
    ensures refused { IfErr result (RefusesPlan tree.now levels.now locks.now keeps.now) }
{
    let given = if locks.is_empty() { None } else { Some(locks) };
    match Plan::read(alloc, tree, levels, given, keeps) {
        Ok(plan) => Ok(plan),
        Err(PlanFault::OutOfMemory) => Err(SettingFault::OutOfMemory),
        Err(fault) => Err(SettingFault::Plan(fault)),
    }
}

// How many PUs a machine has.
fn pu_count(tree: &Tree) -> u32
    ensures { result ≡ pu_count tree.now }
{
    tree.count(Layer::Depth(tree.depths() - 1))
}

// The place of the first number that is not below a count.
fn first_stray(count: u32, pus: &[u32]) -> Option<usize>
    ensures none { result ≡ Nothing → All (λ pu. pu < count) pus.now }
    ensures some { IfSome result (IsStray count pus.now) }
{
    for place in 0..pus.len() {
        if pus[place] >= count {
            return Some(place);
        }
    }
    None
}
