//! How a node's holder takes the high lock.
ghost use Rattle.std.specs.Prelude.{◌≡◌, ◌+◌, ◌<◌, IsSomeAnd, IfSome, IfNone, None};
ghost use Rattle.lock_rules.specs.Holders.{holder_of};
ghost use Rattle.lock_rules.specs.Steps.{IfNot, IfGot};
ghost use Rattle.lock_rules.specs.declared.step.Answer.TheVariants.{Open};
ghost use Rattle.keep_local.specs.Shapes.{node_of};
ghost use Rattle.clof_compose.specs.Calls.{MayTurn, HasOpened};
ghost use Rattle.clof_compose.specs.Courses.{course_of};
ghost use Rattle.clof_compose.specs.Levels.{IsClimbing, IsHolding, IsStanding, kept_stand};
ghost use Rattle.clof_compose.specs.Nodes.{IsContextOfNode};
ghost use Rattle.clof_compose.specs.Owns.{IsOwnFit, own_tag_of, context_in};
ghost use Rattle.clof_compose.specs.declared.own.High.TheVariants.{Idle, Kept, Away};

use crate::composed::Composed;
use crate::own::{High, Own};
use crate::own_cargo::kept_root;
use crate::token::{Resting, Standing};
use crate::turns::open_turn;
use crate::waits::Waits;
use keep_local::Share;
use lock_rules::{Cargo, Held as Holds, Payload, Step};
use std::sync::Wait;

/// The value of a node whose high lock is H, in its holder's hand.
pub(crate) type InHand<P, H> = Holds<Own<P, <H as Composed<P>>::Pass, <H as Composed<P>>::Held>>;

/// Takes the high lock for a node's holder: where it was kept, a turn is opened that climbed to this level, and else the node's pass
/// goes up.
#[inline(always)]
pub(crate) fn take_high<P: Payload, H: Composed<P>>(
    high: &H,
    mut low: InHand<P, H>,
    level: u32,
    share: &mut Share,
) -> Step<(InHand<P, H>, H::Queue), InHand<P, H>>
    requires sound { H.sound high.now }
    requires above { H.level high.now ≡ level + 1 }
    requires context { IsContextOfNode (H.has high.now) level (H.tag high.now) low.value.node
        (context_in H.Pass.rest H.Held.stand low.value.high) }
    requires fit { IsOwnFit H.Pass.rest H.Held.stand P.calls P.tag H.Held.stands low.value.node low.value.kept low.value.said
        low.value.high }
    requires tagged { own_tag_of H.Pass.rest H.Held.stand low.value.node low.value.high ≡ (holder_of low).place.tag }
    requires untested { (holder_of low).tested ≡ Open }
    requires share { MayTurn (course_of (H.tag high.now)) (level + 1) low.value.node share.old }
    ensures queue { IfNot result (λ w. (holder_of w.0).place ≡ (holder_of low).place) }
    ensures climbs { IfNot result (λ w. IsClimbing level w.0.value.node (holder_of low).place.tag (H.Queue.climbs w.1)
        (H.Queue.climb w.1)) }
    ensures entered { IfNot result (λ w. 0 < (H.Queue.climb w.1).entries) }
    ensures unasked { IfNot result (λ w. (holder_of w.0).tested ≡ Open) }
    ensures not_made { IfNot result (λ _. share.new ≡ share.old) }
    ensures held { IfGot result (λ h. (holder_of h).place ≡ (holder_of low).place) }
    ensures holds { IfGot result (λ h. IsHolding level h.value.node h.value.kept (holder_of low).place.tag
        (IsStanding H.Held.stands h.value.high) (kept_stand H.Held.stand h.value.high)) }
    ensures untested { IfGot result (λ h. (holder_of h).tested ≡ Open) }
    ensures made { IfGot result (λ _. share.new ≡ record share.old { made = share.old.made + 1 }) }
    ensures opened { IfGot result (λ h. IsSomeAnd (kept_stand H.Held.stand h.value.high).root (HasOpened P.calls P.tag
        (H.tag high.now) level share.new)) }
{
    let Some(pass) = open_kept(&mut low.value, level, share) else {
        return Step::Got(low);
    };
    match high.begin(pass, share) {
        Step::Not(queue) => Step::Not((low, queue)),
        Step::Got(held) => {
            keep_high(&mut low.value, held);
            Step::Got(low)
        }
    }
}

/// Takes the high lock for a node's holder, as `take_high` does, and waits for it.
#[inline(always)]
pub(crate) fn wait_for_high<P: Payload, H: Waits<P>, R: Wait>(
    high: &H,
    rt: &R,
    own: &mut Own<P, H::Pass, H::Held>,
    level: u32,
    share: &mut Share,
)
    requires sound { H.sound high.now }
    requires above { H.level high.now ≡ level + 1 }
    requires context { IsContextOfNode (H.has high.now) level (H.tag high.now) own.old.node
        (context_in H.Pass.rest H.Held.stand own.old.high) }
    requires fit { IsOwnFit H.Pass.rest H.Held.stand P.calls P.tag H.Held.stands own.old.node own.old.kept own.old.said own.old.high }
    requires share { MayTurn (course_of (H.tag high.now)) (level + 1) own.old.node share.old }
    ensures holds { IsHolding level own.new.node own.new.kept (own_tag_of H.Pass.rest H.Held.stand own.old.node own.old.high)
        (IsStanding H.Held.stands own.new.high) (kept_stand H.Held.stand own.new.high) }
    ensures made { share.new ≡ record share.old { made = share.old.made + 1 } }
    ensures opened { IsSomeAnd (kept_stand H.Held.stand own.new.high).root (HasOpened P.calls P.tag (H.tag high.now) level share.new) }
{
    if let Some(pass) = open_kept(own, level, share) {
        let held = high.acquire(rt, pass, share);
        keep_high(own, held);
    }
}

// Where the high lock is kept, opens a turn that climbed to this level. Else the answer is the node's pass, which is to go up.
fn open_kept<P: Payload, Pass: Resting, Held: Standing<P>>(
    own: &mut Own<P, Pass, Held>,
    level: u32,
    share: &mut Share,
) -> Option<Pass>
    requires above { (context_in Pass.rest Held.stand own.old.high).level ≡ level + 1 }
    requires fit { IsOwnFit Pass.rest Held.stand P.calls P.tag Held.stands own.old.node own.old.kept own.old.said own.old.high }
    requires share { MayTurn (course_of (context_in Pass.rest Held.stand own.old.high).tag) (level + 1) own.old.node share.old }
    ensures holds { IfNone result (IsHolding level own.new.node own.new.kept (own_tag_of Pass.rest Held.stand own.old.node own.old.high)
        (IsStanding Held.stands own.new.high) (kept_stand Held.stand own.new.high)) }
    ensures made { IfNone result (share.new ≡ record share.old { made = share.old.made + 1 }) }
    ensures opened { IfNone result (IsSomeAnd (kept_stand Held.stand own.new.high).root (HasOpened P.calls P.tag
        (context_in Pass.rest Held.stand own.old.high).tag level share.new)) }
    ensures pass { IfSome result (λ p. own.old.high ≡ Idle p) }
    ensures away { IfSome result (λ _. own.new ≡ record own.old { high = Away }) }
    ensures not_made { IfSome result (λ _. share.new ≡ share.old) }
{
    if own.parked() {
        open_turn(kept_root(&mut own.high), share, level);
        return None;
    }
    let High::Idle(pass) = own.high.replace(High::Away) else {
        unreachable!()
    };
    Some(pass)
}

/// Puts the high lock that a node's holder has taken anew into the value.
pub(crate) fn keep_high<P, Pass: Drop, Held: Drop>(own: &mut Own<P, Pass, Held>, high: Held)
    ensures { own.new ≡ record own.old { kept = 0; high = Kept high } }
{
    own.kept = 0;
    *own.high.get_mut() = High::Kept(high);
}
