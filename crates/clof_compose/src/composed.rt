//! The contract of a composed lock.
ghost use Rattle.std.specs.Prelude.{◌≡◌, ◌+◌, ◌≤◌, ℕ, IsSomeAnd, Some};
ghost use Rattle.std.specs.Borrow.{Lends, sem};
ghost use Rattle.lock_rules.specs.Tag.{Tag};
ghost use Rattle.lock_rules.specs.Steps.{IfNot, IfGot};
ghost use Rattle.keep_local.specs.Shapes.{top_of};
ghost use Rattle.clof_compose.specs.Contexts.{Context};
ghost use Rattle.clof_compose.specs.Courses.{course_of};
ghost use Rattle.clof_compose.specs.Calls.{MayTurn, HasOpened, MayRelease, ClosesWith};
ghost use Rattle.clof_compose.specs.Calls.{HasEntered, HasClimbed, HasBegunToLeave, HasDescended};
ghost use Rattle.clof_compose.specs.Names.{Name, IsNamed};
ghost use Rattle.clof_compose.specs.Passes.{AreAll};
ghost use Rattle.clof_compose.specs.Roots.{root_tag, IsFit, IsKept};
ghost use Rattle.clof_compose.specs.declared.root.Root.{Root as TheRoot};
ghost use Rattle.clof_compose.specs.contracts.root.Root.{the_row};

use crate::root::Root;
use crate::token::{Climbing, Descending, Resting, Standing};
use keep_local::Share;
use lock_rules::{Pauses, Payload, Step};
use std::sync::Wait;

/// A lock of one or more levels, whose holder reaches one root.
///
/// `level` is the number of its lowest level, `tag` is the tag of its root, and `count` is the number of its contexts, each of which has
/// one pass. `name` tells the lock from all others: it has the names of all basic locks inside. `sound` says that the locks inside belong
/// together, and `has` that a token of this lock may be of a context. A call that is handed a token asks for both, and gives a token of the
/// same context. No call takes memory, and only the calls that are handed a `Wait` wait.
pub trait Composed<P: Payload>: Sized {
    type Pass: Resting;

    type Queue: Climbing;

    type Held: Standing<P>;

    type Leave: Descending;

    ghost name: { Self → Name };

    ghost level: { Self → ℕ };

    ghost tag: { Self → Tag };

    ghost count: { Self → ℕ };

    ghost sound: { Self → Type 0 };

    ghost has: { Self → Context → Type 0 };

    /// Goes up from the lowest level until a basic lock answers `Not`, or a level's value has the high lock kept, or the top lock is
    /// taken. Then the share's caller opens a turn. The answer is `Not` only where this call made an entering step at the level where the
    /// pass is queued, which the token records.
    fn begin(&self, pass: Self::Pass, share: &mut Share) -> Step<Self::Queue, Self::Held>
        requires sound { sound self.now }
        requires own { has self.now (Self.Pass.rest pass).context }
        requires share { MayTurn (course_of (tag self.now)) (level self.now) (Self.Pass.rest pass).context.number share.old }
        ensures queue { IfNot result (λ q. (Self.Queue.climb q).context ≡ (Self.Pass.rest pass).context) }
        ensures climbs { IfNot result (λ q. Self.Queue.climbs q) }
        ensures above { IfNot result (λ q. level self.now ≤ (Self.Queue.climb q).level) }
        ensures entered { IfNot result (λ q. HasEntered (level self.now) (Self.Pass.rest pass) (Self.Queue.climb q)) }
        ensures not_made { IfNot result (λ _. share.new ≡ share.old) }
        ensures held { IfGot result (λ h. (Self.Held.stand h).context ≡ (Self.Pass.rest pass).context) }
        ensures stands { IfGot result (λ h. Self.Held.stands h) }
        ensures made { IfGot result (λ _. share.new ≡ record share.old { made = share.old.made + 1 }) }
        ensures opened { IfGot result (λ h. IsSomeAnd (Self.Held.stand h).root (HasOpened P.calls P.tag (tag self.now)
            (level self.now) share.new)) };

    /// Goes on from the level at which the pass is queued. The answer is `Not` only where it is queued higher now, by an entering step that
    /// the token there records, or where the one load of this call at that level, which the token records, didn't show the word that the
    /// pass waits for.
    fn poll(&self, queue: Self::Queue, share: &mut Share) -> Step<Self::Queue, Self::Held>
        requires sound { sound self.now }
        requires own { has self.now (Self.Queue.climb queue).context }
        requires climbs { Self.Queue.climbs queue }
        requires share { MayTurn (course_of (tag self.now)) (level self.now) (Self.Queue.climb queue).context.number share.old }
        ensures queue { IfNot result (λ q. (Self.Queue.climb q).context ≡ (Self.Queue.climb queue).context) }
        ensures climbs { IfNot result (λ q. Self.Queue.climbs q) }
        ensures waits { IfNot result (λ q. HasClimbed (Self.Queue.climb queue) (Self.Queue.climb q)) }
        ensures not_made { IfNot result (λ _. share.new ≡ share.old) }
        ensures held { IfGot result (λ h. (Self.Held.stand h).context ≡ (Self.Queue.climb queue).context) }
        ensures stands { IfGot result (λ h. Self.Held.stands h) }
        ensures made { IfGot result (λ _. share.new ≡ record share.old { made = share.old.made + 1 }) }
        ensures opened { IfGot result (λ h. IsSomeAnd (Self.Held.stand h).root (HasOpened P.calls P.tag (tag self.now)
            (level self.now) share.new)) };

    /// Leaves the lock. At each level below the top that it comes to it asks whether somebody is queued behind, and notes the answer. It
    /// keeps the high lock for them where the level's threshold allows, and else releases the high lock first. The answer is `Not` only
    /// where the last load at the level where the pass leaves, which the token records, didn't show the word that the pass waits for. It is
    /// the one load that this call made there, but for that of the question whether somebody is queued.
    fn begin_release(&self, held: Self::Held) -> Step<Self::Leave, Self::Pass>
        requires sound { sound self.now }
        requires own { has self.now (Self.Held.stand held).context }
        requires stands { Self.Held.stands held }
        requires root { IsSomeAnd (Self.Held.stand held).root (MayRelease P.calls P.tag (tag self.now) (level self.now)
            (Self.Held.stand held).context.number) }
        ensures leave { IfNot result (λ l. (Self.Leave.descent l).context ≡ (Self.Held.stand held).context) }
        ensures descends { IfNot result (λ l. Self.Leave.descends l) }
        ensures above { IfNot result (λ l. level self.now ≤ (Self.Leave.descent l).level) }
        ensures waits { IfNot result (λ l. HasBegunToLeave (top_of (course_of (tag self.now)).shape)
            (Self.Held.stand held).loads (Self.Leave.descent l)) }
        ensures noted { IfNot result (λ l. IsSomeAnd (Self.Held.stand held).root (ClosesWith (level self.now)
            (Self.Leave.descent l).report)) }
        ensures pass { IfGot result (λ p. (Self.Pass.rest p).context ≡ (Self.Held.stand held).context) }
        ensures tests { IfGot result (λ p. IsSomeAnd (Self.Held.stand held).root (ClosesWith (level self.now) (Self.Pass.rest p).report)) };

    /// Goes on with a release. The answer is `Not` only where it leaves at a lower level now or made one load at the level where it left,
    /// and the last load at the level where it leaves, which the token records, didn't show the word that the pass waits for.
    fn poll_release(&self, leave: Self::Leave) -> Step<Self::Leave, Self::Pass>
        requires sound { sound self.now }
        requires own { has self.now (Self.Leave.descent leave).context }
        requires descends { Self.Leave.descends leave }
        ensures leave { IfNot result (λ l. (Self.Leave.descent l).context ≡ (Self.Leave.descent leave).context) }
        ensures descends { IfNot result (λ l. Self.Leave.descends l) }
        ensures above { IfNot result (λ l. level self.now ≤ (Self.Leave.descent l).level) }
        ensures waits { IfNot result (λ l. HasDescended (Self.Leave.descent leave) (Self.Leave.descent l)) }
        ensures noted { IfNot result (λ l. (Self.Leave.descent l).report ≡ (Self.Leave.descent leave).report) }
        ensures pass { IfGot result (λ p. (Self.Pass.rest p).context ≡ (Self.Leave.descent leave).context) }
        ensures tests { IfGot result (λ p. (Self.Pass.rest p).report ≡ (Self.Leave.descent leave).report) };

    /// Takes the lock apart, with all its passes in the order of their numbers.
    fn close(self, passes: Vec<Self::Pass>) -> Root<P>
        requires sound { sound self }
        requires all { AreAll (λ p. (Self.Pass.rest p).context) (has self) (level self) (tag self) (count self) passes.items }
        ensures fit { IsFit P.calls result }
        ensures tagged { root_tag P.tag result ≡ tag self };

    // The basic lock that a token is of is the one that the lock's name has for its node.
    ghost named: { (l : Self) (c : Context) → sound l → has l c → IsNamed (name l) c };

    /// The level at which a pass is queued.
    final fn waits_at(queue: &Self::Queue) -> u32
        ensures { result ≡ (Self.Queue.climb queue.now).level }
    {
        queue.waits_at()
    }

    /// The level at which a pass leaves.
    final fn leaves_at(leave: &Self::Leave) -> u32
        ensures { result ≡ (Self.Leave.descent leave.now).level }
    {
        leave.leaves_at()
    }

    /// Lends the root.
    final fn root(held: &mut Self::Held) -> &mut Root<P>
        requires stands { Self.Held.stands held.old }
        ensures* writes_back { sem 𝓛 (Lends Self.Held.row (the_row P.row) held.entry result (Self.Held.put_root held.old)) }
        ensures value { (Self.Held.stand held.old).root ≡ Some result.now }
        ensures others { (r : TheRoot P) → Self.Held.stand (Self.Held.put_root held.old r)
            ≡ record (Self.Held.stand held.old) { root = Some r } }
        ensures stays { (r : TheRoot P) → IsKept P.calls (Self.Held.stand held.old).context.level result.now r
            → Self.Held.stands (Self.Held.put_root held.old r) }
    {
        held.root()
    }

    /// Polls until the pass holds the lock, and pauses behind each poll.
    final fn wait<R: Wait>(&self, rt: &R, queue: Self::Queue, share: &mut Share) -> Self::Held
        requires sound { sound self.now }
        requires own { has self.now (Self.Queue.climb queue).context }
        requires climbs { Self.Queue.climbs queue }
        requires share { MayTurn (course_of (tag self.now)) (level self.now) (Self.Queue.climb queue).context.number share.old }
        ensures held { (Self.Held.stand result).context ≡ (Self.Queue.climb queue).context }
        ensures stands { Self.Held.stands result }
        ensures made { share.new ≡ record share.old { made = share.old.made + 1 } }
        ensures opened { IsSomeAnd (Self.Held.stand result).root (HasOpened P.calls P.tag (tag self.now) (level self.now) share.new) }
    {
        let mut queue = queue;
        let mut pauses = Pauses::new();
        for _ in rt.forever() {
            match self.poll(queue, share) {
                Step::Got(held) => return held,
                Step::Not(next) => queue = next,
            }
            pauses.pause();
        }
        unreachable!()
    }
}
