//! Callers who give their commands to a journal, on threads or as a walk.
ghost use Rattle.std.specs.Prelude.{◌≡◌, ◌≤◌, ℕ, [], length, map, slice_get, IfErr, IfOk, Some};
ghost use Rattle.keep_local.specs.Shapes.{callers_of};
ghost use Rattle.clof_compose.specs.Courses.{course_of};
ghost use Rattle.clof_compose.specs.Roots.{IsFit, root_tag};
ghost use Rattle.lock_work.specs.Ready.{AreBack, IsSet};
ghost use Rattle.threaded_runner.specs.Books.{book_calls, book_tag};
ghost use Rattle.threaded_runner.specs.Crews.{HasRoom, IsCrew};
ghost use Rattle.threaded_runner.specs.Jobs.{IsJob, IsServed};
ghost use Rattle.threaded_runner.specs.Ready.{IsDealt};
ghost use Rattle.run_work.specs.Runs.{AreDealt, IsLeft};
ghost use Rattle.run_work.specs.declared.plain.Brought.{Brought as TheBrought};

use clof_compose::{Composed, Resting, Root, Waits};
use keep_local::Share;
use lock_work::{Dealt, OnThread, UnderLock};
use out_of_memory::OutOfMemory;
use run_texts::{Gate, Section};
use std::alloc::Global;
use std::sync::Wait;
use threaded_runner::{Book, Crew, Finished, Job, Prepared, close_run, crew_of, prepare, serve};
use walked_runner::run_walk;

/// What the callers of a run bring: their shares and their sections, in order, and whether they walk.
#[derive(Drop)]
pub struct Brought<'s, 'a> {
    pub shares: Vec<Share>,
    pub sections: &'s [Section<'a>],
    pub walk: bool,
}

/// Empty lists with room for what comes back of all callers.
#[derive(Drop)]
pub struct Lists<Q> {
    pub passes: Vec<Q>,
    pub shares: Vec<Share>,
    pub stopped: Vec<bool>,
}

/// Callers who give their commands each in a thread of its own, or all in a walk.
pub struct Plain;

impl<'a, Q: Resting, G: Gate> OnThread<Book<'a>, Q, (), Job<'a, Q>, G> for Plain {
    // the job is that of a caller of this lock
    ghost may = { λ _ has level tag sound _ j. sound × (level ≡ 0) × ((number : ℕ) × IsJob Q.rest has level tag number j) };

    // and it comes back as its caller brings it
    ghost did = { λ _ has level tag _ j k. (number : ℕ) → IsJob Q.rest has level tag number j
        → IsServed Q.rest has level tag number k };

    fn serve<C: Waits<Book<'a>, Pass = Q>, R: Wait>(
        rt: &R,
        lock: &C,
        gate: &G,
        _floor: &(),
        job: Job<'a, Q>,
    ) -> Job<'a, Q> {
        serve(rt, lock, gate, job)
    }
}

impl<'s, 'a, Q: Resting, G: Gate> UnderLock<
    Book<'a>,
    Q,
    (),
    Job<'a, Q>,
    Brought<'s, 'a>,
    Finished<'a>,
    G,
> for Plain {
    type Aside = Lists<Q>;

    type Crew = Crew<Q>;

    ghost dealt = { λ _ course brought. IsDealt course (map (λ section. section.bytes.now) brought.sections.now) brought.shares.items };

    ghost is_open = { λ has level count tag _ jobs aside. AreDealt (IsJob Q.rest has level tag) count
        (HasRoom count aside.passes aside.shares aside.stopped) jobs.items };

    ghost is_crew = { λ _. IsCrew Q.rest };

    ghost left = { λ _ tag. IsLeft (course_of tag) };

    fn deal<C: Composed<Book<'a>, Pass = Q>, R: Wait>(
        rt: &R,
        alloc: Global,
        lock: &C,
        _gate: &G,
        passes: Vec<Q>,
        brought: Brought<'s, 'a>,
    ) -> Result<Dealt<(), Job<'a, Q>, Lists<Q>>, Crew<Q>>
        requires set { IsSet Q.rest (C.has lock.now) (C.sound lock.now) (C.level lock.now) (C.count lock.now) (C.tag lock.now)
            (λ course b. IsDealt course (map (λ section. section.bytes.now) b.sections.now) b.shares.items) brought passes.items }
        ensures opened { IfOk result (λ made. AreDealt (IsJob Q.rest (C.has lock.now) (C.level lock.now) (C.tag lock.now))
            (C.count lock.now) (HasRoom (C.count lock.now) made.aside.passes made.aside.shares made.aside.stopped) made.jobs.items) }
        ensures may { IfOk result (λ made. (k : ℕ) (j : _) → slice_get made.jobs.items k ≡ Some j → C.sound lock.now
            × (C.level lock.now ≡ 0) × ((number : ℕ) × IsJob Q.rest (C.has lock.now) (C.level lock.now) (C.tag lock.now) number j)) }
        ensures crew { IfErr result (IsCrew Q.rest (C.has lock.now) (C.level lock.now) (C.count lock.now) (C.tag lock.now)) }
    {
        let Brought {
            shares,
            sections,
            walk,
        } = brought;
        if walk {
            return Err(run_walk(rt, alloc, lock, passes, shares, sections));
        }
        match prepare(alloc, lock, passes, shares, sections) {
            Ok(
                Prepared {
                    jobs,
                    passes,
                    shares,
                    stopped,
                },
            ) => Ok(Dealt {
                floor: (),
                jobs,
                aside: Lists {
                    passes,
                    shares,
                    stopped,
                },
            }),
            Err(crew) => Err(crew),
        }
    }

    fn gather<C: Waits<Book<'a>, Pass = Q>, R: Wait>(
        _rt: &R,
        lock: &C,
        _gate: &G,
        _floor: (),
        jobs: Vec<Job<'a, Q>>,
        aside: Lists<Q>,
    ) -> Crew<Q>
        requires sound { C.sound lock.now }
        requires lowest { C.level lock.now ≡ 0 }
        requires did { AreBack (λ before. AreDealt (IsJob Q.rest (C.has lock.now) (C.level lock.now) (C.tag lock.now)) (C.count lock.now)
            (HasRoom (C.count lock.now) aside.passes aside.shares aside.stopped) before.items)
            (λ j k. (number : ℕ) → IsJob Q.rest (C.has lock.now) (C.level lock.now) (C.tag lock.now) number j
            → IsServed Q.rest (C.has lock.now) (C.level lock.now) (C.tag lock.now) number k) jobs }
        ensures { IsCrew Q.rest (C.has lock.now) (C.level lock.now) (C.count lock.now) (C.tag lock.now) result }
    {
        are_served(lock, &jobs, &aside);
        crew_of(lock, jobs, aside.passes, aside.shares, aside.stopped)
    }

    fn close<C: Composed<Book<'a>, Pass = Q> + Drop, R: Wait>(
        _rt: &R,
        lock: C,
        _gate: &G,
        crew: Crew<Q>,
    ) -> Result<Finished<'a>, OutOfMemory>
        requires sound { C.sound lock }
        requires crew { IsCrew Q.rest (C.has lock) (C.level lock) (C.count lock) (C.tag lock) crew }
        requires count { C.count lock ≡ callers_of (course_of (C.tag lock)).shape }
        requires some { (b : TheBrought) × IsDealt (course_of (C.tag lock)) (map (λ section. section.bytes.now) b.sections.now)
            b.shares.items }
        ensures { IfOk result (IsLeft (course_of (C.tag lock))) }
    {
        close_run(lock, crew)
    }

    fn refused(_gate: &G, root: Root<Book<'a>>) -> Result<Finished<'a>, OutOfMemory>
        requires fit { IsFit book_calls root }
        ensures { IfOk result (IsLeft (course_of (root_tag book_tag root.entry))) }
    {
        Err(OutOfMemory)
    }
}

// What came back of the threads is of all callers.
fn are_served<'a, Q: Resting, C: Composed<Book<'a>, Pass = Q>>(
    _lock: &C,
    _jobs: &Vec<Job<'a, Q>>,
    _aside: &Lists<Q>,
)
    requires did { AreBack (λ before. AreDealt (IsJob Q.rest (C.has _lock.now) (C.level _lock.now) (C.tag _lock.now)) (C.count _lock.now)
        (HasRoom (C.count _lock.now) _aside.now.passes _aside.now.shares _aside.now.stopped) before.items)
        (λ j k. (number : ℕ) → IsJob Q.rest (C.has _lock.now) (C.level _lock.now) (C.tag _lock.now) number j
        → IsServed Q.rest (C.has _lock.now) (C.level _lock.now) (C.tag _lock.now) number k) _jobs.now }
    ensures each { (k : ℕ) (j : _) → slice_get _jobs.now.items k ≡ Some j → IsServed Q.rest (C.has _lock.now) (C.level _lock.now)
        (C.tag _lock.now) k j }
    ensures many { length _jobs.now.items ≡ C.count _lock.now }
    ensures lists { HasRoom (C.count _lock.now) _aside.now.passes _aside.now.shares _aside.now.stopped }
{}
