//! How a top lock is made.
ghost use Rattle.std.specs.Prelude.{◌≡◌, ◌<◌, ◌≤◌, [], All, length, map, IfOk, IfErr, vec_capacity};
ghost use Rattle.keep_local.specs.Shapes.{top_of};
ghost use Rattle.clof_compose.specs.Contexts.{AreContexts};
ghost use Rattle.clof_compose.specs.Inside.{top_lock};
ghost use Rattle.clof_compose.specs.Names.{top_name};
ghost use Rattle.clof_compose.specs.Passes.{AreAll};
ghost use Rattle.clof_compose.specs.Roots.{root_tag, trail_of, IsFit};
ghost use Rattle.clof_compose.specs.Tops.{fresh_pass};

use crate::composed::Composed;
use crate::report::Report;
use crate::root::Root;
use crate::token::Resting;
use crate::top::Top;
use crate::top_tokens::TopPass;
use lock_rules::{Basic, Held, Payload, Placed, Refused};
use std::alloc::Global;

/// A lock of one level, the top of the root's trail, with its passes in the order of their numbers. There is one context for each caller
/// where this is the only level, and else for each node one level below. It is refused for want of memory alone, and gives the root back.
pub fn make_top<P: Payload, B: Basic<Root<P>, Held = Held<Root<P>>> + Drop>(
    alloc: Global,
    recipe: B::Recipe,
    level: u32,
    contexts: u32,
    root: Root<P>,
) -> Result<(Top<B, B::Pass>, Vec<TopPass<B::Pass>>), Refused<Root<P>>>
    requires fit { IsFit P.calls root }
    requires level { level ≡ top_of (trail_of root).shape }
    requires some { 0 < contexts }
    requires contexts { AreContexts (trail_of root).shape level contexts }
    ensures name { IfOk result (λ m. ⟦<Top<B, B::Pass> as Composed<P>>⟧.name m.0 ≡ top_name level (B.name (top_lock m.0))) }
    ensures level { IfOk result (λ m. ⟦<Top<B, B::Pass> as Composed<P>>⟧.level m.0 ≡ level) }
    ensures made { IfOk result (λ m. B.made (top_lock m.0) recipe) }
    ensures tag { IfOk result (λ m. ⟦<Top<B, B::Pass> as Composed<P>>⟧.tag m.0 ≡ root_tag P.tag root) }
    ensures count { IfOk result (λ m. ⟦<Top<B, B::Pass> as Composed<P>>⟧.count m.0 ≡ contexts) }
    ensures sound { IfOk result (λ m. ⟦<Top<B, B::Pass> as Composed<P>>⟧.sound m.0) }
    ensures passes { IfOk result (λ m. AreAll (λ p. (⟦<TopPass<B::Pass> as Resting>⟧.rest p).context)
        (⟦<Top<B, B::Pass> as Composed<P>>⟧.has m.0) (⟦<Top<B, B::Pass> as Composed<P>>⟧.level m.0)
        (⟦<Top<B, B::Pass> as Composed<P>>⟧.tag m.0) (⟦<Top<B, B::Pass> as Composed<P>>⟧.count m.0) m.1.items) }
    ensures fresh { IfOk result (λ m. All (λ p. (⟦<TopPass<B::Pass> as Resting>⟧.rest p).report.tests ≡ 0) m.1.items) }
    ensures refused { IfErr result (λ r. r.value ≡ root) }
{
    let Ok(room) = Vec::with_capacity(alloc, contexts as usize) else {
        return Err(Refused { value: root });
    };
    let Ok(list) = Vec::with_capacity(alloc, contexts as usize) else {
        return Err(Refused { value: root });
    };
    let (low, lows) = B::make(alloc, recipe, contexts, root)?;
    let passes = top_passes(lows, room, level);
    Ok((Top { low, level, list }, passes))
}

// A pass of the top lock for each of its basic lock, in order, in a list that has room for them.
fn top_passes<L: Placed>(mut lows: Vec<L>, mut list: Vec<TopPass<L>>, level: u32) -> Vec<TopPass<L>>
    requires empty { list.items ≡ [] }
    requires room { length lows.items ≤ vec_capacity list }
    ensures { result.items ≡ map (fresh_pass level) lows.items }
{
    while let Some(low) = lows.pop() {
        list.push_reserved(TopPass {
            low,
            level,
            report: Report::blank(),
        });
    }
    list.reverse();
    list
}
