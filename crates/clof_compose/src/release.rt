//! How a node's holder keeps the high lock for the next one, or releases it.
ghost use Rattle.std.specs.Prelude.{◌≡◌, ◌+◌, ◌<◌, ◌≤◌, true, false, IsSomeAnd, IfSome, IfNone};
ghost use Rattle.std.specs.Int.{bit_at};
ghost use Rattle.lock_rules.specs.Steps.{IfNot, IfGot};
ghost use Rattle.clof_compose.specs.Calls.{ClosesWith, HasBegunToLeave, MayRelease, tests_in};
ghost use Rattle.clof_compose.specs.Courses.{course_of};
ghost use Rattle.clof_compose.specs.Levels.{IsDescending, IsIdleAgain, IsStanding, kept_stand};
ghost use Rattle.clof_compose.specs.Contexts.{own_tag};
ghost use Rattle.clof_compose.specs.Nodes.{IsContextOfNode};
ghost use Rattle.clof_compose.specs.Owns.{IsOwnFit, bit_of, is_kept, own_tag_of};
ghost use Rattle.clof_compose.specs.Releases.{HasNoted, IsReleasing};
ghost use Rattle.clof_compose.specs.declared.own.High.TheVariants.{Kept, Away};
ghost use Rattle.keep_local.specs.Shapes.{top_of};
ghost use Rattle.keep_local.specs.Turns.{run};

use crate::climb::InHand;
use crate::composed::Composed;
use crate::own::{High, Own};
use crate::own_cargo::kept_root;
use crate::report::Report;
use crate::token::{Resting, Standing};
use crate::turns::{close_turn, note_waiter};
use crate::waits::Waits;
use lock_rules::{Payload, Step};
use std::sync::Wait;

/// Notes the answer of `waiter` that the value keeps for the open turn. Where it is a yes and the value has kept the high lock for fewer
/// turns than the level's threshold, the turn is closed there, and the answer tells of it.
#[inline(always)]
pub(crate) fn keep_for_next<P: Payload, Pass: Resting, Held: Standing<P>>(
    own: &mut Own<P, Pass, Held>,
    level: u32,
    keep: u32,
) -> Option<Report>
    requires stands { IsStanding Held.stands own.old.high }
    requires above { (kept_stand Held.stand own.old.high).context.level ≡ level + 1 }
    requires node { (kept_stand Held.stand own.old.high).context.number ≡ own.old.node }
    requires kept { IfSome (kept_stand Held.stand own.old.high).root (λ r. own.old.kept ≡ run level r.trail.closed) }
    requires root { IsSomeAnd (kept_stand Held.stand own.old.high).root (IsReleasing P.calls P.tag
        (kept_stand Held.stand own.old.high).context.tag level keep own.old.node) }
    ensures node { own.new.node ≡ own.old.node }
    ensures said { own.new.said ≡ own.old.said }
    ensures raised { IfSome result (λ _. own.new.kept ≡ own.old.kept + 1) }
    ensures not_raised { IfNone result (own.new.kept ≡ own.old.kept) }
    ensures context { (kept_stand Held.stand own.new.high).context ≡ (kept_stand Held.stand own.old.high).context }
    ensures loads { (kept_stand Held.stand own.new.high).loads ≡ (kept_stand Held.stand own.old.high).loads }
    ensures stands { IsStanding Held.stands own.new.high }
    ensures kept { IfSome result (λ _. (own.old.said ≡ true)
        × IsOwnFit Pass.rest Held.stand P.calls P.tag Held.stands own.new.node own.new.kept own.new.said own.new.high) }
    ensures tests { IfSome result (λ report. IsSomeAnd (kept_stand Held.stand own.old.high).root (ClosesWith level report)) }
    ensures not_kept { IfNone result (IsSomeAnd (kept_stand Held.stand own.new.high).root (MayRelease P.calls P.tag
        (kept_stand Held.stand own.old.high).context.tag (level + 1) own.new.node)) }
    ensures noted { IfNone result (bit_at (tests_in (kept_stand Held.stand own.new.high).root) level ≡ bit_of own.old.said) }
    ensures same { IfNone result (IsSomeAnd (kept_stand Held.stand own.old.high).root (λ r. IsSomeAnd
        (kept_stand Held.stand own.new.high).root (HasNoted level own.old.said r))) }
{
    note_waiter(kept_root(&mut own.high), level, own.said);
    let Some(kept) = count_if_kept(own.said, own.kept, keep) else {
        return None;
    };
    own.kept = kept;
    Some(close_turn(kept_root(&mut own.high), level))
}

// How many turns will have kept the high lock, where this one keeps it for the next: somebody is queued behind, and fewer than the level's
// threshold have kept it.
fn count_if_kept(yes: bool, kept: u32, keep: u32) -> Option<u32>
    ensures yes { IfSome result (λ _. yes ≡ true) }
    ensures below { IfSome result (λ _. kept < keep) }
    ensures raised { IfSome result (λ count. count ≡ kept + 1) }
    ensures not { IfNone result (yes ≡ true → keep ≤ kept) }
{
    if yes && kept < keep {
        Some(kept + 1)
    } else {
        None
    }
}

/// Releases the high lock of a node, whose pass comes back into the value. The answer tells of the closed turn.
#[inline(always)]
pub(crate) fn release_high<P: Payload, H: Composed<P>>(
    high: &H,
    mut low: InHand<P, H>,
) -> Step<(InHand<P, H>, H::Leave), (InHand<P, H>, Report)>
    requires sound { H.sound high.now }
    requires own { H.has high.now (kept_stand H.Held.stand low.value.high).context }
    requires stands { IsStanding H.Held.stands low.value.high }
    requires root { IsSomeAnd (kept_stand H.Held.stand low.value.high).root (MayRelease P.calls P.tag (H.tag high.now)
        (H.level high.now) (kept_stand H.Held.stand low.value.high).context.number) }
    ensures seat { IfNot result (λ w. w.0.seat ≡ low.seat) }
    ensures value { IfNot result (λ w. w.0.value ≡ record low.value { high = Away }) }
    ensures context { IfNot result (λ w. (H.Leave.descent w.1).context ≡ (kept_stand H.Held.stand low.value.high).context) }
    ensures descends { IfNot result (λ w. H.Leave.descends w.1) }
    ensures above { IfNot result (λ w. H.level high.now ≤ (H.Leave.descent w.1).level) }
    ensures waits { IfNot result (λ w. HasBegunToLeave (top_of (course_of (H.tag high.now)).shape)
        (kept_stand H.Held.stand low.value.high).loads (H.Leave.descent w.1)) }
    ensures noted { IfNot result (λ w. IsSomeAnd (kept_stand H.Held.stand low.value.high).root (ClosesWith (H.level high.now)
        (H.Leave.descent w.1).report)) }
    ensures kept_seat { IfGot result (λ w. w.0.seat ≡ low.seat) }
    ensures idle { IfGot result (λ w. IsIdleAgain H.Pass.rest (kept_stand H.Held.stand low.value.high).context low.value w.0.value
        w.1.tests) }
    ensures tests { IfGot result (λ w. IsSomeAnd (kept_stand H.Held.stand low.value.high).root (ClosesWith (H.level high.now) w.1)) }
{
    match high.begin_release(take_kept(&mut low.value)) {
        Step::Not(leave) => Step::Not((low, leave)),
        Step::Got(pass) => {
            let report = put_back(&mut low.value, pass);
            Step::Got((low, report))
        }
    }
}

// Takes the token of the kept high lock out of the value.
fn take_kept<P: Payload, Pass: Resting, Held: Standing<P>>(own: &mut Own<P, Pass, Held>) -> Held
    requires { IsStanding Held.stands own.old.high }
    ensures held { own.old.high ≡ Kept result }
    ensures away { own.new ≡ record own.old { high = Away } }
{
    let High::Kept(held) = own.high.replace(High::Away) else {
        unreachable!()
    };
    held
}

/// Keeps the high lock of a node for the next one, or releases it, by the answer of `waiter` that the value keeps. The value may then be
/// put back, and the answer beside it tells of the closed turn.
#[inline(always)]
pub(crate) fn let_go<P: Payload, H: Composed<P>>(
    high: &H,
    mut low: InHand<P, H>,
    level: u32,
    keep: u32,
) -> Step<(InHand<P, H>, H::Leave), (InHand<P, H>, Report)>
    requires sound { H.sound high.now }
    requires above { H.level high.now ≡ level + 1 }
    requires context { IsContextOfNode (H.has high.now) level (H.tag high.now) low.value.node
        (kept_stand H.Held.stand low.value.high).context }
    requires stands { IsStanding H.Held.stands low.value.high }
    requires kept { IfSome (kept_stand H.Held.stand low.value.high).root (λ r. low.value.kept ≡ run level r.trail.closed) }
    requires root { IsSomeAnd (kept_stand H.Held.stand low.value.high).root (IsReleasing P.calls P.tag (H.tag high.now) level keep
        low.value.node) }
    ensures seat { IfNot result (λ w. w.0.seat ≡ low.seat) }
    ensures descends { IfNot result (λ w. IsDescending level w.0.value.node w.0.value.said (own_tag low.value.node
        (kept_stand H.Held.stand low.value.high).context) (H.Leave.descends w.1) (H.Leave.descent w.1)) }
    ensures waits { IfNot result (λ w. HasBegunToLeave (top_of (course_of (H.tag high.now)).shape)
        (kept_stand H.Held.stand low.value.high).loads (H.Leave.descent w.1)) }
    ensures said { IfNot result (λ w. w.0.value.said ≡ low.value.said) }
    ensures noted { IfNot result (λ w. IsSomeAnd (kept_stand H.Held.stand low.value.high).root (ClosesWith level
        (H.Leave.descent w.1).report)) }
    ensures same_seat { IfGot result (λ w. w.0.seat ≡ low.seat) }
    ensures fit { IfGot result (λ w. IsOwnFit H.Pass.rest H.Held.stand P.calls P.tag H.Held.stands w.0.value.node w.0.value.kept
        w.0.value.said w.0.value.high) }
    ensures tagged { IfGot result (λ w. own_tag_of H.Pass.rest H.Held.stand w.0.value.node w.0.value.high ≡ own_tag low.value.node
        (kept_stand H.Held.stand low.value.high).context) }
    ensures same_said { IfGot result (λ w. w.0.value.said ≡ low.value.said) }
    ensures parked { IfGot result (λ w. is_kept H.Pass.rest H.Held.stand w.0.value.high ≡ true → low.value.said ≡ true) }
    ensures tests { IfGot result (λ w. IsSomeAnd (kept_stand H.Held.stand low.value.high).root (ClosesWith level w.1)) }
{
    if let Some(report) = keep_for_next(&mut low.value, level, keep) {
        return Step::Got((low, report));
    }
    release_high(high, low)
}

/// Keeps the high lock of a node for the next one, or releases it, as `let_go` does, and waits for the release. The answer tells of
/// the closed turn.
#[inline(always)]
pub(crate) fn let_go_and_wait<P: Payload, H: Waits<P>, R: Wait>(
    high: &H,
    rt: &R,
    own: &mut Own<P, H::Pass, H::Held>,
    level: u32,
    keep: u32,
) -> Report
    requires sound { H.sound high.now }
    requires above { H.level high.now ≡ level + 1 }
    requires context { IsContextOfNode (H.has high.now) level (H.tag high.now) own.old.node (kept_stand H.Held.stand own.old.high).context }
    requires stands { IsStanding H.Held.stands own.old.high }
    requires kept { IfSome (kept_stand H.Held.stand own.old.high).root (λ r. own.old.kept ≡ run level r.trail.closed) }
    requires root { IsSomeAnd (kept_stand H.Held.stand own.old.high).root (IsReleasing P.calls P.tag (H.tag high.now) level keep
        own.old.node) }
    ensures fit { IsOwnFit H.Pass.rest H.Held.stand P.calls P.tag H.Held.stands own.new.node own.new.kept own.new.said own.new.high }
    ensures tagged { own_tag_of H.Pass.rest H.Held.stand own.new.node own.new.high ≡ own_tag own.old.node
        (kept_stand H.Held.stand own.old.high).context }
    ensures said { own.new.said ≡ own.old.said }
    ensures parked { is_kept H.Pass.rest H.Held.stand own.new.high ≡ true → own.old.said ≡ true }
    ensures tests { IsSomeAnd (kept_stand H.Held.stand own.old.high).root (ClosesWith level result) }
{
    if let Some(report) = keep_for_next(own, level, keep) {
        return report;
    }
    let pass = high.release(rt, take_kept(own));
    put_back(own, pass)
}

/// Puts the pass of a released high lock back into the value. The answer is what the pass tells, and the pass keeps the tests.
pub(crate) fn put_back<P, Pass: Resting, Held: Drop>(
    own: &mut Own<P, Pass, Held>,
    mut pass: Pass,
) -> Report
    ensures idle { IsIdleAgain Pass.rest (Pass.rest pass).context own.old own.new result.tests }
    ensures report { result ≡ (Pass.rest pass).report }
{
    let report = pass.take_report();
    *own.high.get_mut() = High::Idle(pass);
    report
}
