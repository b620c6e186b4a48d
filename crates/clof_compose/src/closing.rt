//! How the passes of a level come back to its basic locks, and those of the high lock out of them.
ghost use Rattle.std.specs.Prelude.{◌≡◌, ◌+◌, ◌≤◌, ◌<◌, ℕ, [], length, reverse, slice_get, Some, IfNone, IfSome, vec_capacity};
ghost use Rattle.clof_compose.specs.Nodes.{AreLocks, AreFilled, AreFull, FallsTo, locks_of};
ghost use Rattle.clof_compose.specs.Passes.{AreAll, AreFrom, IsNumber};

use crate::composed::Composed;
use crate::level_tokens::LevelPass;
use crate::node::Node;
use crate::own::{High, Own};
use lock_rules::{Basic, Cargo, Payload};

/// Puts the basic pass of each context into the list of its node.
pub(crate) fn take_passes<V: Cargo, B: Basic<V>>(
    mut nodes: Vec<Node<B, B::Pass>>,
    mut passes: Vec<LevelPass<B::Pass>>,
    parents: &[u32],
) -> Vec<Node<B, B::Pass>>
    requires within { (k n : ℕ) → slice_get parents.now k ≡ Some n → n < length nodes.items }
    requires filled { AreFilled B.name B.tag B.count B.Pass.place parents.now 0 nodes.items }
    requires all { length passes.items ≡ length parents.now }
    requires each { (k : ℕ) (p : _) → slice_get passes.items k ≡ Some p → FallsTo B.name B.tag parents.now (locks_of nodes.items) k
        (B.Pass.place p.low) }
    ensures locks { locks_of result.items ≡ locks_of nodes.items }
    ensures filled { AreFilled B.name B.tag B.count B.Pass.place parents.now (length parents.now) result.items }
{
    passes.reverse();
    for node in parents {
        let Some(pass) = passes.pop() else {
            unreachable!()
        };
        let LevelPass { low, .. } = pass;
        nodes[*node as usize].list.push_reserved(low);
    }
    nodes
}

/// Takes the basic locks apart. `passes` has the passes of the nodes behind these, the last one first. The answer has the pass of each node
/// in the high lock, in order.
pub(crate) fn close_nodes<P: Payload, H: Composed<P>, B: Basic<Own<P, H::Pass, H::Held>> + Drop>(
    high: &H,
    mut nodes: Vec<Node<B, B::Pass>>,
    mut passes: Vec<H::Pass>,
) -> Vec<H::Pass>
    requires locks { AreLocks B.tag (H.has high.now) (H.level high.now) (H.tag high.now) (locks_of nodes.items) }
    requires full { AreFull B.name B.tag B.count B.Pass.place nodes.items }
    requires behind { AreFrom (λ p. (H.Pass.rest p).context) (H.has high.now) (H.level high.now) (H.tag high.now) (length nodes.items)
        (reverse passes.items) }
    requires room { length nodes.items + length passes.items ≤ vec_capacity passes }
    ensures { AreAll (λ p. (H.Pass.rest p).context) (H.has high.now) (H.level high.now) (H.tag high.now) (length nodes.items + length
        passes.items) result.items }
{
    while let Some(pass) = close_last::<P, H, B>(high, &mut nodes) {
        passes.push_reserved(pass);
    }
    passes.reverse();
    passes
}

// Takes the last basic lock apart. The answer is its node's pass in the high lock, or `None` where there is none.
fn close_last<P: Payload, H: Composed<P>, B: Basic<Own<P, H::Pass, H::Held>> + Drop>(
    _high: &H,
    nodes: &mut Vec<Node<B, B::Pass>>,
) -> Option<H::Pass>
    requires locks { AreLocks B.tag (H.has _high.now) (H.level _high.now) (H.tag _high.now) (locks_of nodes.old.items) }
    requires full { AreFull B.name B.tag B.count B.Pass.place nodes.old.items }
    ensures none { IfNone result (nodes.old.items ≡ []) }
    ensures fewer { IfSome result (λ _. length nodes.old.items ≡ length nodes.new.items + 1) }
    ensures number { IfSome result (λ p. IsNumber (H.has _high.now) (H.level _high.now) (H.tag _high.now) (length nodes.new.items)
        (H.Pass.rest p).context) }
    ensures locks { IfSome result (λ _. AreLocks B.tag (H.has _high.now) (H.level _high.now) (H.tag _high.now)
        (locks_of nodes.new.items)) }
    ensures full { IfSome result (λ _. AreFull B.name B.tag B.count B.Pass.place nodes.new.items) }
{
    let Some(node) = nodes.pop() else {
        return None;
    };
    let Own { high, .. } = node.lock.close(node.list);
    let High::Idle(pass) = high.into_inner() else {
        unreachable!()
    };
    Some(pass)
}
