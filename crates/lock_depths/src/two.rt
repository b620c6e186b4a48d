//! A lock of two levels.
ghost use Rattle.std.specs.Prelude.{◌≡◌, ◌+◌, ◌<◌, ◌^◌, length, IfSome};
ghost use Rattle.lock_rules.specs.Tag.{leaf};
ghost use Rattle.keep_local.specs.Shapes.{IsWellFormed, callers_of, top_of};
ghost use Rattle.clof_compose.specs.Courses.{course_of};
ghost use Rattle.clof_compose.specs.Inside.{high_lock};
ghost use Rattle.clof_compose.specs.NameLaws.{level_named};
ghost use Rattle.clof_compose.specs.Passes.{AreAll};
ghost use Rattle.clof_compose.specs.Roots.{IsFit, root_tag, trail_of};
ghost use Rattle.lock_levels.specs.Raised.{IsRaised};

use crate::below::level_below;
use clof_compose::{Climbing, Composed, Descending, Resting, Root, Standing};
use keep_local::{Shape, Share};
use lock_levels::{HasKinds, LevelOver, LockKind, LowPass, Plan, TopOf, make_top_of};
use lock_rules::Step;
use own_payload::Noted;
use std::alloc::Global;
use std::marker::PhantomData;

/// The lock above the lowest level.
type High = TopOf<Noted<()>>;

type Levels = LevelOver<Noted<()>, High>;

type Queue = <Levels as Composed<Noted<()>>>::Queue;

type Held = <Levels as Composed<Noted<()>>>::Held;

type Leave = <Levels as Composed<Noted<()>>>::Leave;

/// A lock of two levels.
#[derive(Drop)]
pub struct LockOfTwo {
    pub levels: Levels,
    pub kinds: PhantomData<LockKind>,
}

/// A pass in a queue of a lock of two levels.
#[derive(Drop)]
pub struct QueueOfTwo {
    pub queue: Queue,
}

/// The holder of a lock of two levels.
#[derive(Drop)]
pub struct HeldOfTwo {
    pub held: Held,
}

/// A pass that leaves a lock of two levels.
#[derive(Drop)]
pub struct LeaveOfTwo {
    pub leave: Leave,
}

impl Climbing for QueueOfTwo {
    ghost climb = { λ q. ⟦<Queue as Climbing>⟧.climb q.queue };

    ghost climbs = { λ q. ⟦<Queue as Climbing>⟧.climbs q.queue };

    fn waits_at(&self) -> u32 {
        self.queue.waits_at()
    }
}

impl Standing<Noted<()>> for HeldOfTwo {
    ghost stand = { λ h. ⟦<Held as Standing<Noted<()>>>⟧.stand h.held };

    ghost stands = { λ h. ⟦<Held as Standing<Noted<()>>>⟧.stands h.held };

    ghost put_root = { λ h r. record h { held = ⟦<Held as Standing<Noted<()>>>⟧.put_root h.held r } };

    fn root(&mut self) -> &mut Root<Noted<()>> {
        self.held.root()
    }
}

impl Descending for LeaveOfTwo {
    ghost descent = { λ l. ⟦<Leave as Descending>⟧.descent l.leave };

    ghost descends = { λ l. ⟦<Leave as Descending>⟧.descends l.leave };

    fn leaves_at(&self) -> u32 {
        self.leave.leaves_at()
    }
}

impl Composed<Noted<()>> for LockOfTwo {
    type Pass = LowPass;

    type Queue = QueueOfTwo;

    type Held = HeldOfTwo;

    type Leave = LeaveOfTwo;

    ghost name = { λ l. ⟦<Levels as Composed<Noted<()>>>⟧.name l.levels };

    ghost level = { λ l. ⟦<Levels as Composed<Noted<()>>>⟧.level l.levels };

    ghost tag = { λ l. ⟦<Levels as Composed<Noted<()>>>⟧.tag l.levels };

    ghost count = { λ l. ⟦<Levels as Composed<Noted<()>>>⟧.count l.levels };

    ghost sound = { λ l. ⟦<Levels as Composed<Noted<()>>>⟧.sound l.levels };

    ghost has = { λ l. ⟦<Levels as Composed<Noted<()>>>⟧.has l.levels };

    ghost named = { λ l c sound own. level_named (⟦<High as Composed<Noted<()>>>⟧.name (high_lock l.levels)) c sound own };

    #[inline(always)]
    fn begin(&self, pass: LowPass, share: &mut Share) -> Step<QueueOfTwo, HeldOfTwo> {
        match self.levels.begin(pass, share) {
            Step::Not(queue) => Step::Not(QueueOfTwo { queue }),
            Step::Got(held) => Step::Got(HeldOfTwo { held }),
        }
    }

    #[inline(always)]
    fn poll(&self, queue: QueueOfTwo, share: &mut Share) -> Step<QueueOfTwo, HeldOfTwo> {
        match self.levels.poll(queue.queue, share) {
            Step::Not(queue) => Step::Not(QueueOfTwo { queue }),
            Step::Got(held) => Step::Got(HeldOfTwo { held }),
        }
    }

    #[inline(always)]
    fn begin_release(&self, held: HeldOfTwo) -> Step<LeaveOfTwo, LowPass> {
        match self.levels.begin_release(held.held) {
            Step::Not(leave) => Step::Not(LeaveOfTwo { leave }),
            Step::Got(pass) => Step::Got(pass),
        }
    }

    fn poll_release(&self, leave: LeaveOfTwo) -> Step<LeaveOfTwo, LowPass> {
        match self.levels.poll_release(leave.leave) {
            Step::Not(leave) => Step::Not(LeaveOfTwo { leave }),
            Step::Got(pass) => Step::Got(pass),
        }
    }

    fn close(self, passes: Vec<LowPass>) -> Root<Noted<()>>
        requires sound { ⟦<Levels as Composed<Noted<()>>>⟧.sound self.levels }
        requires all { AreAll (λ p. (⟦<LowPass as Resting>⟧.rest p).context) (⟦<Levels as Composed<Noted<()>>>⟧.has self.levels)
            (⟦<Levels as Composed<Noted<()>>>⟧.level self.levels) (⟦<Levels as Composed<Noted<()>>>⟧.tag self.levels)
            (⟦<Levels as Composed<Noted<()>>>⟧.count self.levels) passes.items }
        ensures fit { IsFit (λ n. n.calls.callers) result }
        ensures tagged { root_tag (λ _. leaf 0) result ≡ ⟦<Levels as Composed<Noted<()>>>⟧.tag self.levels }
    {
        self.levels.close(passes)
    }
}

impl HasKinds<Noted<()>> for LockOfTwo {
    ghost has_kinds = { λ l kinds level. ⟦<Levels as HasKinds<Noted<()>>>⟧.has_kinds l.levels kinds level };
}

/// A lock around a root, whose two levels, this one the lowest, have the kinds that the plan has for them. `None` for want of memory.
pub fn make_of_two(
    alloc: Global,
    plan: &Plan,
    shape: &Shape,
    root: Root<Noted<()>>,
    level: u32,
) -> Option<(LockOfTwo, Vec<LowPass>)>
    requires plan { length plan.now.kinds ≡ top_of shape.now + 1 }
    requires level { top_of shape.now ≡ level + 1 }
    requires formed { IsWellFormed shape.now }
    requires some { 0 < callers_of shape.now }
    requires few { callers_of shape.now < 2 ^ 32 }
    requires fit { IsFit (λ n. n.calls.callers) root }
    requires shape { (trail_of root).shape ≡ shape.now }
    requires same { (course_of (root_tag (λ _. leaf 0) root)).shape ≡ shape.now }
    ensures raised { IfSome result (λ m. IsRaised ⟦<LowPass as Resting>⟧.rest (⟦<LockOfTwo as Composed<Noted<()>>>⟧.has m.0)
        (⟦<LockOfTwo as Composed<Noted<()>>>⟧.sound m.0) (⟦<LockOfTwo as Composed<Noted<()>>>⟧.level m.0)
        (⟦<LockOfTwo as Composed<Noted<()>>>⟧.count m.0) (⟦<LockOfTwo as Composed<Noted<()>>>⟧.tag m.0) shape.now level
        (root_tag (λ _. leaf 0) root) m.1.items) }
    ensures kinds { IfSome result (λ m. ⟦<LockOfTwo as HasKinds<Noted<()>>>⟧.has_kinds m.0 plan.now.kinds level) }
{
    let Ok((high, passes)) = make_top_of::<Noted<()>>(alloc, plan, root, shape, level + 1) else {
        return None;
    };
    let (levels, passes) = level_below::<High>(alloc, plan, shape, level, high, passes)?;
    let kinds = PhantomData;
    Some((LockOfTwo { levels, kinds }, passes))
}
