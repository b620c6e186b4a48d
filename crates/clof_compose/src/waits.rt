//! Waiting for a composed lock, level by level.
ghost use Rattle.std.specs.Prelude.{◌≡◌, ◌+◌, IsSomeAnd};
ghost use Rattle.clof_compose.specs.Calls.{MayTurn, HasOpened, MayRelease, ClosesWith};
ghost use Rattle.clof_compose.specs.Courses.{course_of};

use crate::climb::wait_for_high;
use crate::composed::Composed;
use crate::level::Level;
use crate::level_tokens::{LevelHeld, LevelPass};
use crate::node::lock_of;
use crate::own::Own;
use crate::release::let_go_and_wait;
use crate::root::Root;
use crate::token::{Resting, Standing};
use crate::top::Top;
use crate::top_tokens::{TopHeld, TopPass};
use crate::turns::{close_turn, open_turn};
use keep_local::Share;
use lock_rules::{Basic, Held as Holds, Payload};
use std::sync::Wait;

/// A composed lock that a caller may wait for.
///
/// Its calls make the same basic calls in the same order as those of `Composed` and polls, but wait at each level by itself: what waits is
/// the token of one basic lock, where a token of `Composed` has room for the stages of all levels. They stand in a trait above `Composed`,
/// so that code which is generic over that one alone has no call that waits.
pub trait Waits<P: Payload>: Composed<P> {
    /// Waits until the pass holds the lock.
    fn acquire<R: Wait>(&self, rt: &R, pass: Self::Pass, share: &mut Share) -> Self::Held
        requires sound { Self.sound self.now }
        requires own { Self.has self.now (Self.Pass.rest pass).context }
        requires share { MayTurn (course_of (Self.tag self.now)) (Self.level self.now) (Self.Pass.rest pass).context.number share.old }
        ensures held { (Self.Held.stand result).context ≡ (Self.Pass.rest pass).context }
        ensures stands { Self.Held.stands result }
        ensures made { share.new ≡ record share.old { made = share.old.made + 1 } }
        ensures opened { IsSomeAnd (Self.Held.stand result).root (HasOpened P.calls P.tag (Self.tag self.now) (Self.level self.now)
            share.new) };

    /// Leaves the lock, and waits until the pass is idle again.
    fn release<R: Wait>(&self, rt: &R, held: Self::Held) -> Self::Pass
        requires sound { Self.sound self.now }
        requires own { Self.has self.now (Self.Held.stand held).context }
        requires stands { Self.Held.stands held }
        requires root { IsSomeAnd (Self.Held.stand held).root (MayRelease P.calls P.tag (Self.tag self.now) (Self.level self.now)
            (Self.Held.stand held).context.number) }
        ensures pass { (Self.Pass.rest result).context ≡ (Self.Held.stand held).context }
        ensures tests { IsSomeAnd (Self.Held.stand held).root (ClosesWith (Self.level self.now) (Self.Pass.rest result).report) };
}

impl<P: Payload, B: Basic<Root<P>, Held = Holds<Root<P>>>> Waits<P> for Top<B, B::Pass> {
    #[inline(always)]
    fn acquire<R: Wait>(&self, rt: &R, pass: TopPass<B::Pass>, share: &mut Share) -> TopHeld<P> {
        let level = self.level;
        let mut low = self.low.acquire(rt, pass.low);
        open_turn(&mut low.value, share, level);
        TopHeld {
            low,
            level,
            filler: 0,
        }
    }

    #[inline(always)]
    fn release<R: Wait>(&self, rt: &R, held: TopHeld<P>) -> TopPass<B::Pass> {
        let level = self.level;
        let mut low = held.low;
        let report = close_turn(&mut low.value, level);
        let low = self.low.release(rt, low);
        TopPass { low, level, report }
    }
}

impl<
    P: Payload,
    H: Waits<P>,
    B: Basic<Own<P, H::Pass, H::Held>, Held = Holds<Own<P, H::Pass, H::Held>>> + Drop,
> Waits<P> for Level<B, H, B::Pass, H::Pass> {
    #[inline(always)]
    fn acquire<R: Wait>(
        &self,
        rt: &R,
        pass: LevelPass<B::Pass>,
        share: &mut Share,
    ) -> LevelHeld<P, H::Pass, H::Held> {
        let id = pass.id;
        let mut low = lock_of(&self.nodes, id.node).acquire(rt, pass.low);
        wait_for_high(&self.high, rt, &mut low.value, id.level, share);
        LevelHeld { low, id, filler: 0 }
    }

    #[inline(always)]
    fn release<R: Wait>(&self, rt: &R, held: LevelHeld<P, H::Pass, H::Held>) -> LevelPass<B::Pass> {
        let LevelHeld { mut low, id, .. } = held;
        let lock = lock_of(&self.nodes, id.node);
        low.value.said = lock.waiter(&mut low);
        let report = let_go_and_wait(&self.high, rt, &mut low.value, id.level, self.keep);
        let low = lock.release(rt, low);
        LevelPass { low, id, report }
    }
}
