//! The parts in which a run lies while threads serve its callers.
ghost use Rattle.std.specs.Prelude.{◌≡◌, ℕ, slice_get, Some};
ghost use Rattle.cohort_runner.specs.Rolls.{contexts_of};
ghost use Rattle.cohort_runner.specs.Runs.{HasSat, IsOpen, MaySit, run_of};
ghost use Rattle.lock_work.specs.Ready.{AreBack};

use crate::seated::Room;
use clof_compose::{Composed, Resting};
use cohort_desks::{Desk, Hall};
use cohort_runner::{Aside, Caller, Floor, Run};
use lock_work::Dealt;
use threaded_runner::Book;

/// The parts of an open run: what all threads have before them, a desk for each thread, and what is put aside until they have ended.
pub(crate) fn parted<'a, C: Composed<Book<'a>>>(
    _lock: &C,
    run: Run<'a, C::Pass>,
    quantum: u32,
) -> Dealt<Room<'a, C::Pass>, Desk<Caller<'a, C::Pass>>, Aside<'a, C::Pass>>
    requires opened { IsOpen C.Pass.rest (C.has _lock.now) (C.level _lock.now) (C.count _lock.now) (C.tag _lock.now) run }
    requires sound { C.sound _lock.now }
    requires lowest { C.level _lock.now ≡ 0 }
    ensures opened { IsOpen C.Pass.rest (C.has _lock.now) (C.level _lock.now) (C.count _lock.now) (C.tag _lock.now)
        (run_of result.floor.floor result.jobs result.aside) }
    ensures may { (i : ℕ) (d : _) → slice_get result.jobs.items i ≡ Some d → MaySit (C.has _lock.now) (C.level _lock.now)
        (C.tag _lock.now) (C.sound _lock.now) (contexts_of C.Pass.rest result.floor.floor.roll.told.value.items)
        result.floor.floor.cohorts.items d }
{
    let Run { roll, hall, lists } = run;
    let Hall {
        cohorts,
        desks,
        emptied,
        slots,
    } = hall;
    let floor = Floor { roll, cohorts };
    Dealt {
        floor: Room { floor, quantum },
        jobs: desks,
        aside: Aside {
            emptied,
            slots,
            lists,
        },
    }
}

/// The run of these parts, behind its threads.
pub(crate) fn joined<'a, C: Composed<Book<'a>>>(
    _lock: &C,
    floor: Floor<'a, C::Pass>,
    desks: Vec<Desk<Caller<'a, C::Pass>>>,
    aside: Aside<'a, C::Pass>,
) -> Run<'a, C::Pass>
    requires opened { AreBack (λ before. IsOpen C.Pass.rest (C.has _lock.now) (C.level _lock.now) (C.count _lock.now) (C.tag _lock.now)
        (run_of floor before aside)) (HasSat floor.cohorts.items) desks }
    ensures { IsOpen C.Pass.rest (C.has _lock.now) (C.level _lock.now) (C.count _lock.now) (C.tag _lock.now) result }
{
    let Floor { roll, cohorts } = floor;
    let Aside {
        emptied,
        slots,
        lists,
    } = aside;
    Run {
        roll,
        hall: Hall {
            cohorts,
            desks,
            emptied,
            slots,
        },
        lists,
    }
}
