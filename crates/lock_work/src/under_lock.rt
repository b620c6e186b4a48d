//! What callers do under a lock over a payload, whatever lock that is.
ghost use Rattle.std.specs.Prelude.{◌≡◌, ℕ, slice_get, IfErr, IfOk, Some};
ghost use Rattle.std.specs.declared.alloc.Global.{Global};
ghost use Rattle.std.specs.declared.vec.Vec.{Vec};
ghost use Rattle.lock_rules.specs.Tag.{Tag};
ghost use Rattle.keep_local.specs.Shapes.{callers_of};
ghost use Rattle.clof_compose.specs.Contexts.{Context};
ghost use Rattle.clof_compose.specs.Courses.{Course, course_of};
ghost use Rattle.clof_compose.specs.Roots.{IsFit, root_tag};
ghost use Rattle.lock_work.specs.Ready.{AreBack, IsSet};

use clof_compose::{Composed, Payload, Resting, Root, Waits};
use out_of_memory::OutOfMemory;
use std::alloc::Global;
use std::sync::Wait;

/// What threads have before them, a job for each of them, and what is put aside until they have ended.
#[derive(Drop)]
pub struct Dealt<K, J, L> {
    pub floor: K,
    pub jobs: Vec<J>,
    pub aside: L,
}

/// What one thread does for callers with passes Q under a lock over a payload P: threads share a G and have the floor K before them, and
/// each does a job J.
pub trait OnThread<P: Payload, Q: Resting, K, J, G> {
    // A thread that shares this may do this job before this floor, under a lock that has these contexts, this level and this tag, and is
    // sound.
    ghost may: { G → (Context → Type 0) → ℕ → Tag → Type 0 → K → J → Type 0 };

    // What comes of it.
    ghost did: { G → (Context → Type 0) → ℕ → Tag → K → J → J → Type 0 };

    /// Does a job.
    fn serve<C: Waits<P, Pass = Q>, R: Wait>(rt: &R, lock: &C, shared: &G, floor: &K, job: J) -> J
        requires { may shared.now (C.has lock.now) (C.level lock.now) (C.tag lock.now) (C.sound lock.now) floor.now job }
        ensures { did shared.now (C.has lock.now) (C.level lock.now) (C.tag lock.now) floor.now job result };
}

/// What callers with passes Q do under a lock over a payload P. All together they bring B, and leave F.
///
/// None of its methods sends anything to a thread: what does so knows its lock and its payload as type parameters of its own.
pub trait UnderLock<P: Payload, Q: Resting, K, J, B, F, G>: OnThread<P, Q, K, J, G> {
    /// What is put aside until the threads have ended.
    type Aside;

    /// What comes back of all callers.
    type Crew;

    // What the tag of a lock tells callers who bring this.
    ghost dealt: { G → Course → B → Type 0 };

    // All callers are here, of a lock that has such contexts, with this level, this number of them and this tag.
    ghost is_open: { (Context → Type 0) → ℕ → ℕ → Tag → K → Vec J Global → Self.Aside → Type 0 };

    // It is what all callers brought back, of a lock that has such contexts, with this level, this number of them and this tag.
    ghost is_crew: { G → (Context → Type 0) → ℕ → ℕ → Tag → Self.Crew → Type 0 };

    // What is left under a lock with this tag.
    ghost left: { G → Tag → F → Type 0 };

    /// Makes the jobs of threads. Where none is needed, or without memory for the jobs, it gives what came back of all callers.
    fn deal<C: Composed<P, Pass = Q>, R: Wait>(
        rt: &R,
        alloc: Global,
        lock: &C,
        shared: &G,
        passes: Vec<Q>,
        brought: B,
    ) -> Result<Dealt<K, J, Self::Aside>, Self::Crew>
        requires set { IsSet Q.rest (C.has lock.now) (C.sound lock.now) (C.level lock.now) (C.count lock.now) (C.tag lock.now)
            (dealt shared.now) brought passes.items }
        ensures opened { IfOk result (λ made. is_open (C.has lock.now) (C.level lock.now) (C.count lock.now) (C.tag lock.now) made.floor
            made.jobs made.aside) }
        ensures may { IfOk result (λ made. (k : ℕ) (j : J) → slice_get made.jobs.items k ≡ Some j → Self.may shared.now (C.has lock.now)
            (C.level lock.now) (C.tag lock.now) (C.sound lock.now) made.floor j) }
        ensures crew { IfErr result (is_crew shared.now (C.has lock.now) (C.level lock.now) (C.count lock.now) (C.tag lock.now)) };

    /// What comes back of all callers, once the threads have done their jobs.
    fn gather<C: Waits<P, Pass = Q>, R: Wait>(
        rt: &R,
        lock: &C,
        shared: &G,
        floor: K,
        jobs: Vec<J>,
        aside: Self::Aside,
    ) -> Self::Crew
        requires sound { C.sound lock.now }
        requires lowest { C.level lock.now ≡ 0 }
        requires did { AreBack (λ before. is_open (C.has lock.now) (C.level lock.now) (C.count lock.now) (C.tag lock.now) floor before
            aside) (Self.did shared.now (C.has lock.now) (C.level lock.now) (C.tag lock.now) floor) jobs }
        ensures { is_crew shared.now (C.has lock.now) (C.level lock.now) (C.count lock.now) (C.tag lock.now) result };

    /// Does what is to be done without threads, and takes the lock apart.
    fn close<C: Composed<P, Pass = Q> + Drop, R: Wait>(
        rt: &R,
        lock: C,
        shared: &G,
        crew: Self::Crew,
    ) -> Result<F, OutOfMemory>
        requires sound { C.sound lock }
        requires crew { is_crew shared.now (C.has lock) (C.level lock) (C.count lock) (C.tag lock) crew }
        requires count { C.count lock ≡ callers_of (course_of (C.tag lock)).shape }
        requires some { (brought : B) × dealt shared.now (course_of (C.tag lock)) brought }
        ensures { IfOk result (left shared.now (C.tag lock)) };

    /// Ends without a lock, which was refused for want of memory; its root came back.
    fn refused(shared: &G, root: Root<P>) -> Result<F, OutOfMemory>
        requires fit { IsFit P.calls root }
        ensures { IfOk result (left shared.now (root_tag P.tag root)) };
}
