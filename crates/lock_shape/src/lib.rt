//! The levels of a composed lock that a shape of callers asks for: how many contexts each has, and the node above each context.
#![tactic(auto)]

ghost use Rattle.std.specs.Prelude.{◌≡◌, ◌+◌, ◌<◌, ◌≤◌, ◌^◌, All, length, map, slice_index, IfErr, IfOk};
ghost use Rattle.keep_local.specs.Shapes.{IsWellFormed, top_of, callers_of, node_of};
ghost use Rattle.clof_compose.specs.Contexts.{AreContexts, IsContextOf};
ghost use Rattle.clof_compose.specs.Courses.{course_of};
ghost use Rattle.clof_compose.specs.Inside.{high_lock, node_locks};
ghost use Rattle.clof_compose.specs.Names.{level_name};
ghost use Rattle.clof_compose.specs.Nodes.{IsInShape};
ghost use Rattle.clof_compose.specs.Passes.{AreAll};

use clof_compose::{Composed, Level, LevelPass, Own, Payload, Resting, Returned, make_level};
use keep_local::Shape;
use lock_rules::{Basic, Held, Placed};
use out_of_memory::OutOfMemory;
use std::alloc::Global;

/// The node of a caller at a level.
fn node_at(shape: &Shape, caller: usize, level: u32) -> u32
    requires shaped { IsWellFormed shape.now }
    requires caller { caller < callers_of shape.now }
    requires level { level ≤ top_of shape.now }
    ensures { result ≡ node_of shape.now caller level }
{
    shape.paths.as_slice()[caller].as_slice()[level as usize]
}

/// How many contexts a lock of this level has: at level 0 one for each caller, and else one for each node one level below.
pub fn contexts_at(shape: &Shape, level: u32) -> usize
    requires shaped { IsWellFormed shape.now }
    requires level { level ≤ top_of shape.now }
    ensures { AreContexts shape.now level result }
{
    let callers = shape.paths.as_slice().len();
    if level == 0 {
        return callers;
    }
    let mut count: usize = 0;
    for caller in 0..callers {
        let node = node_at(shape, caller, level - 1) as usize;
        if count <= node {
            count = node + 1;
        }
    }
    count
}

/// For each context of a lock of this level, which is below the top, the node above it.
pub fn parents_at(alloc: Global, shape: &Shape, level: u32) -> Result<Vec<u32>, OutOfMemory>
    requires shaped { IsWellFormed shape.now }
    requires level { level < top_of shape.now }
    ensures parents { IfOk result (λ p. IsInShape shape.now level (slice_index shape.now.keeps level) p.items) }
    ensures contexts { IfOk result (λ p. AreContexts shape.now level (length p.items)) }
{
    let mut parents = Vec::from_elem(alloc, 0, contexts_at(shape, level))?;
    for caller in 0..shape.paths.as_slice().len() {
        let context = context_of(shape, caller, level);
        parents[context] = node_at(shape, caller, level);
    }
    Ok(parents)
}

// The context that a caller stands under in a lock of this level.
fn context_of(shape: &Shape, caller: usize, level: u32) -> usize
    requires shaped { IsWellFormed shape.now }
    requires caller { caller < callers_of shape.now }
    requires level { level ≤ top_of shape.now }
    ensures { IsContextOf shape.now level caller result }
{
    if level == 0 {
        caller
    } else {
        node_at(shape, caller, level - 1) as usize
    }
}

/// Another level below a composed lock, whose trail has this shape. It is refused for want of memory alone, and gives the lock and its
/// passes back.
pub fn add_level<
    P: Payload,
    H: Composed<P> + Drop,
    B: Basic<Own<P, H::Pass, H::Held>, Held = Held<Own<P, H::Pass, H::Held>>> + Drop,
>(
    alloc: Global,
    recipe: B::Recipe,
    level: u32,
    shape: &Shape,
    high: H,
    passes: Vec<H::Pass>,
) -> Result<(Level<B, H, B::Pass, H::Pass>, Vec<LevelPass<B::Pass>>), Returned<H, H::Pass>>
    requires sound { H.sound high }
    requires above { H.level high ≡ level + 1 }
    requires all { AreAll (λ p. (H.Pass.rest p).context) (H.has high) (H.level high) (H.tag high) (H.count high) passes.items }
    requires fresh { All (λ p. (H.Pass.rest p).report.tests ≡ 0) passes.items }
    requires shaped { IsWellFormed shape.now }
    requires few { callers_of shape.now < 2 ^ 32 }
    requires level { level < top_of shape.now }
    requires same { (course_of (H.tag high)).shape ≡ shape.now }
    requires contexts { AreContexts shape.now (level + 1) (H.count high) }
    ensures name { IfOk result (λ m. ⟦<Level<B, H, B::Pass, H::Pass> as Composed<P>>⟧.name m.0
        ≡ level_name level (map B.name (node_locks m.0)) (H.name high)) }
    ensures level { IfOk result (λ m. ⟦<Level<B, H, B::Pass, H::Pass> as Composed<P>>⟧.level m.0 ≡ level) }
    ensures over { IfOk result (λ m. high_lock m.0 ≡ high) }
    ensures made { IfOk result (λ m. All (λ lock. B.made lock recipe) (node_locks m.0)) }
    ensures tag { IfOk result (λ m. ⟦<Level<B, H, B::Pass, H::Pass> as Composed<P>>⟧.tag m.0 ≡ H.tag high) }
    ensures contexts { IfOk result (λ m. AreContexts shape.now level (⟦<Level<B, H, B::Pass, H::Pass> as Composed<P>>⟧.count m.0)) }
    ensures sound { IfOk result (λ m. ⟦<Level<B, H, B::Pass, H::Pass> as Composed<P>>⟧.sound m.0) }
    ensures passes { IfOk result (λ m. AreAll (λ p. (⟦<LevelPass<B::Pass> as Resting>⟧.rest p).context)
        (⟦<Level<B, H, B::Pass, H::Pass> as Composed<P>>⟧.has m.0) (⟦<Level<B, H, B::Pass, H::Pass> as Composed<P>>⟧.level m.0)
        (⟦<Level<B, H, B::Pass, H::Pass> as Composed<P>>⟧.tag m.0) (⟦<Level<B, H, B::Pass, H::Pass> as Composed<P>>⟧.count m.0)
        m.1.items) }
    ensures fresh { IfOk result (λ m. All (λ p. (⟦<LevelPass<B::Pass> as Resting>⟧.rest p).report.tests ≡ 0) m.1.items) }
    ensures high { IfErr result (λ r. r.high ≡ high) }
    ensures returned { IfErr result (λ r. AreAll (λ p. (H.Pass.rest p).context) (H.has high) (H.level high) (H.tag high) (H.count high)
        r.passes.items) }
{
    let Ok(parents) = parents_at(alloc, shape, level) else {
        return Err(Returned { high, passes });
    };
    let keep = shape.keeps.as_slice()[level as usize];
    make_level::<P, H, B>(alloc, recipe, level, keep, &parents, high, passes)
}
