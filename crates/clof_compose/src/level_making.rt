//! How a level is made over a high lock.
ghost use Rattle.std.specs.Prelude.{◌≡◌, ◌+◌, ◌<◌, ◌≤◌, ◌^◌, ℕ, false, [], All, length, map, slice_get, Some, vec_capacity, IfOk, IfErr};
ghost use Rattle.lock_rules.specs.Passes.{AreAll as AreAllLow};
ghost use Rattle.clof_compose.specs.Contexts.{AreContexts, own_tag};
ghost use Rattle.clof_compose.specs.Courses.{course_of};
ghost use Rattle.clof_compose.specs.Inside.{high_lock, node_locks, parents_of};
ghost use Rattle.clof_compose.specs.Names.{level_name};
ghost use Rattle.clof_compose.specs.Nodes.{AreFilled, AreLocks, AreMade, IsGiven, IsInShape, locks_of, under};
ghost use Rattle.clof_compose.specs.Owns.{IsIdlePart};
ghost use Rattle.clof_compose.specs.Passes.{AreAll};
ghost use Rattle.clof_compose.specs.declared.own.High.TheVariants.{Idle};

use crate::closing::close_nodes;
use crate::composed::Composed;
use crate::context_id::ContextId;
use crate::level::Level;
use crate::level_tokens::LevelPass;
use crate::node::Node;
use crate::own::{High, Own};
use crate::report::Report;
use crate::token::{Resting, Standing};
use boxed_value::Boxed;
use lock_rules::{Basic, Cargo, Held as Holds, Payload};
use std::alloc::Global;
use std::marker::PhantomData;

/// There was no memory. The high lock and its passes come back, in order.
#[derive(Drop)]
pub struct Returned<H, HL> {
    pub high: H,
    pub passes: Vec<HL>,
}

/// A level over a high lock, with its passes in the order of their numbers. `parents` has for each context the node above it, and the
/// node i has the high lock's context i. There is a basic lock for each node. It is refused for want of memory alone.
pub fn make_level<
    P: Payload,
    H: Composed<P>,
    B: Basic<Own<P, H::Pass, H::Held>, Held = Holds<Own<P, H::Pass, H::Held>>> + Drop,
>(
    alloc: Global,
    recipe: B::Recipe,
    level: u32,
    keep: u32,
    parents: &[u32],
    high: H,
    passes: Vec<H::Pass>,
) -> Result<(Level<B, H, B::Pass, H::Pass>, Vec<LevelPass<B::Pass>>), Returned<H, H::Pass>>
    requires sound { H.sound high }
    requires above { H.level high ≡ level + 1 }
    requires all { AreAll (λ p. (H.Pass.rest p).context) (H.has high) (H.level high) (H.tag high) (H.count high) passes.items }
    requires fresh { All (λ p. (H.Pass.rest p).report.tests ≡ 0) passes.items }
    requires shape { IsInShape (course_of (H.tag high)).shape level keep parents.now }
    requires contexts { AreContexts (course_of (H.tag high)).shape level (length parents.now) }
    requires nodes { AreContexts (course_of (H.tag high)).shape (level + 1) (H.count high) }
    requires few { length parents.now < 2 ^ 32 }
    ensures name { IfOk result (λ m. ⟦<Level<B, H, B::Pass, H::Pass> as Composed<P>>⟧.name m.0
        ≡ level_name level (map B.name (node_locks m.0)) (H.name high)) }
    ensures level { IfOk result (λ m. ⟦<Level<B, H, B::Pass, H::Pass> as Composed<P>>⟧.level m.0 ≡ level) }
    ensures over { IfOk result (λ m. high_lock m.0 ≡ high) }
    ensures made { IfOk result (λ m. All (λ lock. B.made lock recipe) (node_locks m.0)) }
    ensures tag { IfOk result (λ m. ⟦<Level<B, H, B::Pass, H::Pass> as Composed<P>>⟧.tag m.0 ≡ H.tag high) }
    ensures count { IfOk result (λ m. parents_of m.0 ≡ parents.now) }
    ensures sound { IfOk result (λ m. ⟦<Level<B, H, B::Pass, H::Pass> as Composed<P>>⟧.sound m.0) }
    ensures passes { IfOk result (λ m. AreAll (λ p. (⟦<LevelPass<B::Pass> as Resting>⟧.rest p).context)
        (⟦<Level<B, H, B::Pass, H::Pass> as Composed<P>>⟧.has m.0) (⟦<Level<B, H, B::Pass, H::Pass> as Composed<P>>⟧.level m.0)
        (⟦<Level<B, H, B::Pass, H::Pass> as Composed<P>>⟧.tag m.0) (⟦<Level<B, H, B::Pass, H::Pass> as Composed<P>>⟧.count m.0)
        m.1.items) }
    ensures fresh { IfOk result (λ m. All (λ p. (⟦<LevelPass<B::Pass> as Resting>⟧.rest p).report.tests ≡ 0) m.1.items) }
    ensures high { IfErr result (λ r. r.high ≡ high) }
    ensures returned { IfErr result (λ r. AreAll (λ p. (H.Pass.rest p).context) (H.has high) (H.level high) (H.tag high) (H.count high)
        r.passes.items) }
{
    let (Ok(nodes), Ok(room), Ok(copy)) = (
        Vec::with_capacity(alloc, passes.len()),
        Vec::with_capacity(alloc, parents.len()),
        Vec::from_slice(alloc, parents),
    ) else {
        return Err(Returned { high, passes });
    };
    match make_nodes::<P, H, B>(alloc, recipe, parents, &high, nodes, passes) {
        Ok((nodes, list)) => {
            let (nodes, passes) = give_passes::<Own<P, H::Pass, H::Held>, B>(
                nodes, parents, level, room,
            );
            let made = Level {
                high,
                nodes,
                parents: copy,
                list,
                level,
                keep,
            };
            Ok((made, passes))
        }
        Err(passes) => Err(Returned { high, passes }),
    }
}

// A node for each pass of the high lock, whose list has all passes of its basic lock, and the emptied list of these passes. For want of
// memory they come back, in order.
fn make_nodes<
    P: Payload,
    H: Composed<P>,
    B: Basic<Own<P, H::Pass, H::Held>, Held = Holds<Own<P, H::Pass, H::Held>>> + Drop,
>(
    alloc: Global,
    recipe: B::Recipe,
    parents: &[u32],
    high: &H,
    mut nodes: Vec<Node<B, B::Pass>>,
    mut passes: Vec<H::Pass>,
) -> Result<(Vec<Node<B, B::Pass>>, Vec<H::Pass>), Vec<H::Pass>>
    requires all { AreAll (λ p. (H.Pass.rest p).context) (H.has high.now) (H.level high.now) (H.tag high.now) (length passes.items)
        passes.items }
    requires above { 0 < H.level high.now }
    requires fresh { All (λ p. (H.Pass.rest p).report.tests ≡ 0) passes.items }
    requires parents { (n : ℕ) → n < length passes.items → 0 < under parents.now n (length parents.now) }
    requires few { length parents.now < 2 ^ 32 }
    requires few_nodes { length passes.items ≤ 2 ^ 32 }
    requires empty { nodes.items ≡ [] }
    requires room { length passes.items ≤ vec_capacity nodes }
    ensures locks { IfOk result (λ m. AreLocks B.tag (H.has high.now) (H.level high.now) (H.tag high.now) (locks_of m.0.items)) }
    ensures made { IfOk result (λ m. AreMade B.made recipe m.0.items) }
    ensures filled { IfOk result (λ m. AreFilled B.name B.tag B.count B.Pass.place parents.now (length parents.now) m.0.items) }
    ensures many { IfOk result (λ m. length m.0.items ≡ length passes.items) }
    ensures emptied { IfOk result (λ m. m.1.items ≡ []) }
    ensures list { IfOk result (λ m. length passes.items ≤ vec_capacity m.1) }
    ensures returned { IfErr result (λ l. AreAll (λ p. (H.Pass.rest p).context) (H.has high.now) (H.level high.now) (H.tag high.now)
        (length passes.items) l.items) }
{
    passes.reverse();
    while let Some(pass) = passes.pop() {
        let number = nodes.len() as u32;
        let contexts = contexts_under(parents, number);
        match make_node::<P, H::Pass, H::Held, B>(alloc, recipe, number, contexts, pass) {
            Ok(node) => nodes.push_reserved(node),
            Err(pass) => {
                passes.push_reserved(pass);
                return Err(close_nodes::<P, H, B>(high, nodes, passes));
            }
        }
    }
    Ok((nodes, passes))
}

// How many contexts there are under a node.
fn contexts_under(parents: &[u32], node: u32) -> u32
    requires { length parents.now < 2 ^ 32 }
    ensures { result ≡ under parents.now node (length parents.now) }
{
    parents.iter().filter(|parent| **parent == node).count() as u32
}

// A basic lock whose value has this pass of the high lock. For want of memory it comes back.
fn make_node<
    P: Payload,
    Pass: Resting,
    Held: Standing<P>,
    B: Basic<Own<P, Pass, Held>, Held = Holds<Own<P, Pass, Held>>> + Drop,
>(
    alloc: Global,
    recipe: B::Recipe,
    number: u32,
    contexts: u32,
    pass: Pass,
) -> Result<Node<B, B::Pass>, Pass>
    requires some { 0 < contexts }
    requires number { (Pass.rest pass).context.number ≡ number }
    requires above { 0 < (Pass.rest pass).context.level }
    requires fresh { (Pass.rest pass).report.tests ≡ 0 }
    ensures made { IfOk result (λ n. B.made n.lock recipe) }
    ensures tag { IfOk result (λ n. B.tag n.lock ≡ own_tag number (Pass.rest pass).context) }
    ensures count { IfOk result (λ n. B.count n.lock ≡ contexts) }
    ensures lows { IfOk result (λ n. AreAllLow B.Pass.place (B.name n.lock) (B.tag n.lock) (B.count n.lock) n.list.items) }
    ensures refused { IfErr result (λ p. p ≡ pass) }
{
    let own = new_own(alloc, number, pass)?;
    match B::make(alloc, recipe, contexts, own) {
        Ok((lock, list)) => Ok(Node { lock, list }),
        Err(refused) => Err(idle_pass(refused.value.high.into_inner())),
    }
}

// A node's value at making: no turn has kept its high lock, `waiter` hasn't been asked, and the high part is this pass. For want of
// memory it comes back.
fn new_own<P, Pass: Drop, Held: Drop>(
    alloc: Global,
    node: u32,
    pass: Pass,
) -> Result<Own<P, Pass, Held>, Pass>
    ensures node { IfOk result (λ own. own.node ≡ node) }
    ensures kept { IfOk result (λ own. own.kept ≡ 0) }
    ensures unsaid { IfOk result (λ own. own.said ≡ false) }
    ensures idle { IfOk result (λ own. own.high ≡ Idle pass) }
    ensures refused { IfErr result (λ p. p ≡ pass) }
{
    let high = match Boxed::new(alloc, High::Idle(pass)) {
        Ok(high) => high,
        Err(high) => return Err(idle_pass(high)),
    };
    Ok(Own {
        node,
        kept: 0,
        said: false,
        filler: [0; 7],
        high,
        payload: PhantomData,
    })
}

// The pass of a high part that is idle.
fn idle_pass<Pass: Drop, Held: Drop>(high: High<Pass, Held>) -> Pass
    requires { IsIdlePart high }
    ensures { high ≡ Idle result }
{
    match high {
        High::Idle(pass) => pass,
        _ => unreachable!(),
    }
}

// A pass for each context, in order, which takes the basic pass that falls to it out of its node's list.
fn give_passes<V: Cargo, B: Basic<V>>(
    mut nodes: Vec<Node<B, B::Pass>>,
    parents: &[u32],
    level: u32,
    mut passes: Vec<LevelPass<B::Pass>>,
) -> (Vec<Node<B, B::Pass>>, Vec<LevelPass<B::Pass>>)
    requires within { (k n : ℕ) → slice_get parents.now k ≡ Some n → n < length nodes.items }
    requires few { length parents.now < 2 ^ 32 }
    requires filled { AreFilled B.name B.tag B.count B.Pass.place parents.now (length parents.now) nodes.items }
    requires empty { passes.items ≡ [] }
    requires room { length parents.now ≤ vec_capacity passes }
    ensures locks { locks_of result.0.items ≡ locks_of nodes.items }
    ensures filled { AreFilled B.name B.tag B.count B.Pass.place parents.now 0 result.0.items }
    ensures all { length result.1.items ≡ length parents.now }
    ensures each { (k : ℕ) (p : _) → slice_get result.1.items k ≡ Some p → IsGiven B.name B.tag B.Pass.place level parents.now
        (locks_of nodes.items) k p }
{
    for number in (0..parents.len()).rev() {
        let node = parents[number];
        let Some(low) = nodes[node as usize].list.pop() else {
            unreachable!()
        };
        let id = ContextId {
            level,
            node,
            number: number as u32,
        };
        let report = Report::blank();
        passes.push_reserved(LevelPass { low, id, report });
    }
    passes.reverse();
    (nodes, passes)
}
