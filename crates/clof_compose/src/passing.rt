//! How a pass that has taken its node's basic lock goes up.
ghost use Rattle.std.specs.Prelude.{◌≡◌, ◌+◌, ◌<◌, IsSomeAnd};
ghost use Rattle.lock_rules.specs.Holders.{holder_of};
ghost use Rattle.lock_rules.specs.Steps.{IfNot, IfGot};
ghost use Rattle.lock_rules.specs.declared.step.Answer.TheVariants.{Open};
ghost use Rattle.clof_compose.specs.Calls.{MayTurn, HasOpened};
ghost use Rattle.clof_compose.specs.Courses.{course_of};
ghost use Rattle.clof_compose.specs.Levels.{level_context, kept_stand, IsHolding, IsStanding};
ghost use Rattle.clof_compose.specs.Nodes.{IsContextOfNode};
ghost use Rattle.clof_compose.specs.Owns.{IsOwnFit, own_tag_of, context_in};
ghost use Rattle.clof_compose.specs.Stages.{queue_climb, IsQueued};

use crate::climb::{InHand, take_high};
use crate::composed::Composed;
use crate::context_id::ContextId;
use crate::level_tokens::{LevelHeld, LevelQueue};
use crate::stage::QueueStage;
use keep_local::Share;
use lock_rules::{Payload, Queueing, Step};

/// Goes up to the high lock with the value of a node in hand. The answer is the level's token.
#[inline(always)]
pub(crate) fn go_up<P: Payload, H: Composed<P>, Q: Queueing>(
    high: &H,
    low: InHand<P, H>,
    id: ContextId,
    share: &mut Share,
) -> Step<LevelQueue<P, Q, H::Pass, H::Held, H::Queue>, LevelHeld<P, H::Pass, H::Held>>
    requires sound { H.sound high.now }
    requires above { H.level high.now ≡ id.level + 1 }
    requires context { IsContextOfNode (H.has high.now) id.level (H.tag high.now) low.value.node
        (context_in H.Pass.rest H.Held.stand low.value.high) }
    requires fit { IsOwnFit H.Pass.rest H.Held.stand P.calls P.tag H.Held.stands low.value.node low.value.kept low.value.said
        low.value.high }
    requires tagged { own_tag_of H.Pass.rest H.Held.stand low.value.node low.value.high ≡ (holder_of low).place.tag }
    requires untested { (holder_of low).tested ≡ Open }
    requires share { MayTurn (course_of (H.tag high.now)) (id.level + 1) low.value.node share.old }
    ensures queue { IfNot result (λ q. (queue_climb Q.waiting H.Queue.climb q.id.level q.id.node q.id.number q.stage).context
        ≡ level_context id.level id.node id.number (holder_of low).place) }
    ensures climbs { IfNot result (λ q. IsQueued H.Queue.climb H.Queue.climbs q.id.level q.stage) }
    ensures above { IfNot result (λ q. id.level < (queue_climb Q.waiting H.Queue.climb q.id.level q.id.node q.id.number q.stage).level) }
    ensures entered { IfNot result (λ q. 0 < (queue_climb Q.waiting H.Queue.climb q.id.level q.id.node q.id.number q.stage).entries) }
    ensures not_made { IfNot result (λ _. share.new ≡ share.old) }
    ensures held { IfGot result (λ h. level_context h.id.level h.id.node h.id.number (holder_of h.low).place
        ≡ level_context id.level id.node id.number (holder_of low).place) }
    ensures stands { IfGot result (λ h. IsHolding h.id.level h.low.value.node h.low.value.kept (holder_of h.low).place.tag
        (IsStanding H.Held.stands h.low.value.high) (kept_stand H.Held.stand h.low.value.high) × ((holder_of h.low).tested ≡ Open)) }
    ensures made { IfGot result (λ _. share.new ≡ record share.old { made = share.old.made + 1 }) }
    ensures opened { IfGot result (λ h. IsSomeAnd (kept_stand H.Held.stand h.low.value.high).root (HasOpened P.calls P.tag
        (H.tag high.now) id.level share.new)) }
{
    match take_high(high, low, id.level, share) {
        Step::Not((low, queue)) => Step::Not(LevelQueue {
            stage: QueueStage::High(low, queue),
            id,
        }),
        Step::Got(low) => Step::Got(LevelHeld { low, id, filler: 0 }),
    }
}
