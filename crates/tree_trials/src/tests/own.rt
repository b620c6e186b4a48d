//! Callers on a value of one's own, under locks of one to five levels.
ghost use Rattle.std.specs.Prelude.{◌≡◌, ◌+◌, ◌<◌, ◌^◌, IfSome, length};
ghost use Rattle.keep_local.specs.Shapes.{IsWellFormed, callers_of, top_of};

use keep_local::{Shape, Trail};
use level_harness::shape_of;
use lock_levels::LockKind::{Clh, Hem, Mcs, Tkt};
use lock_levels::{LockKind, Plan};
use own_payload::Serves;
use own_runner::{run, serve};
use sequence::Sequence;
use std::alloc::Global;
use std::process::Abort;
use std::sync::Wait;
use std::sync::atomic::{AtomicU32, Ordering};
use std::thread::Threads;

/// The value: how often the lock was held, how often by each caller, and the sum of the tasks.
#[derive(Drop)]
struct Counts {
    all: u64,
    by_caller: [u64; 4],
    sum: u64,
}

impl Counts {
    fn new() -> Counts {
        Counts {
            all: 0,
            by_caller: [0; 4],
            sum: 0,
        }
    }

    fn add(&mut self, caller: u32, task: u32) {
        self.all = self.all.wrapping_add(1);
        if let Some(count) = self.by_caller.get_mut(caller as usize) {
            *count = count.wrapping_add(1);
        }
        self.sum = self.sum.wrapping_add(u64::from(task));
    }
}

/// What a lock is made of: the kinds of its levels, the paths of four callers, and the keeps of the levels below the top.
struct Setting<'a> {
    kinds: &'a [LockKind],
    paths: [&'a [u32]; 4],
    keeps: &'a [u32],
}

/// Two cohorts of two callers each under one to five levels. They meet at the top, and of five levels at the third.
const SETTINGS: [Setting<'static>; 5] = [
    Setting {
        kinds: &[Clh],
        paths: [&[0], &[0], &[0], &[0]],
        keeps: &[],
    },
    Setting {
        kinds: &[Tkt, Mcs],
        paths: [&[0, 0], &[0, 0], &[1, 0], &[1, 0]],
        keeps: &[9],
    },
    Setting {
        kinds: &[Tkt, Hem, Mcs],
        paths: [&[0, 0, 0], &[0, 0, 0], &[1, 1, 0], &[1, 1, 0]],
        keeps: &[9, 9],
    },
    Setting {
        kinds: &[Hem, Mcs, Tkt, Clh],
        paths: [&[0, 0, 0, 0], &[0, 0, 0, 0], &[1, 1, 1, 0], &[1, 1, 1, 0]],
        keeps: &[2, 2, 2],
    },
    Setting {
        kinds: &[Clh, Tkt, Mcs, Hem, Mcs],
        paths: [
            &[0, 0, 0, 0, 0],
            &[0, 0, 0, 0, 0],
            &[1, 1, 0, 0, 0],
            &[1, 1, 0, 0, 0],
        ],
        keeps: &[1, 0, 3, 2],
    },
];

/// The shape and the plan of a setting, or `None` for want of memory. The plan's depths are left out, since a lock is made without them.
fn made(alloc: Global, setting: &Setting<'_>) -> Option<(Shape, Plan)>
    ensures formed { IfSome result (λ m. IsWellFormed m.0) }
    ensures callers { IfSome result (λ m. callers_of m.0 ≡ 4) }
    ensures kinds { IfSome result (λ m. length m.1.kinds ≡ top_of m.0 + 1) }
    ensures levels { IfSome result (λ m. top_of m.0 < 5) }
{
    let shape = shape_of(alloc, &setting.paths, setting.keeps)?;
    let levels = setting.kinds.len();
    if !shape.is_well_formed() || levels > 5 || levels != setting.keeps.len() + 1 {
        return None;
    }
    let plan = Plan {
        depths: Sequence::from_vec(Vec::new(alloc)),
        kinds: Sequence::from_vec(Vec::from_slice(alloc, setting.kinds).ok()?),
        keeps: Sequence::from_vec(Vec::from_slice(alloc, setting.keeps).ok()?),
    };
    Some((shape, plan))
}

fn has_counts(rt: &impl Abort, counts: &Counts, all: u64, sum: u64) {
    assert!(rt; counts.all == all && counts.sum == sum);
}

/// How often each caller holds, 650 times in all.
const QUOTAS: [u32; 4] = [100, 0, 300, 250];

fn has_held(rt: &impl Abort, trail: &Trail, counts: &Counts) {
    assert!(rt; trail.is_recorded() && trail.turns().len() == 650);
    assert!(rt; counts.by_caller == [100, 0, 300, 250]);
}

#[test]
fn each_caller_holds_as_often_as_its_quota(rt: HostRuntime) {
    for setting in &SETTINGS {
        let Some((shape, plan)) = made(rt.alloc(), setting) else {
            panic!(rt; "there was no memory")
        };
        let work = |counts: &mut Counts, caller: u32| counts.add(caller, 2);
        let new = Counts::new();
        let Some(root) = run(&rt, rt.alloc(), &plan, &shape, &QUOTAS, new, &work) else {
            panic!(rt; "there was no memory")
        };
        has_counts(&rt, &root.payload().value, 650, 1300);
        has_held(&rt, root.trail(), &root.payload().value);
    }
}

/// Hands out the tasks below a limit, one after the other to whoever asks, and counts the answers.
#[derive(Drop)]
struct Tasks {
    limit: u32,
    next: AtomicU32,
    told: AtomicU32,
}

impl Tasks {
    fn new(limit: u32) -> Tasks {
        Tasks {
            limit,
            next: AtomicU32::new(0),
            told: AtomicU32::new(0),
        }
    }
}

impl Serves<Counts> for Tasks {
    type Task = u32;

    type Answer = u64;

    ghost may = { λ _ _. Unit {0} };

    ghost stops = { λ _ _. Unit {0} };

    fn next(&self, _caller: u32) -> Option<u32> {
        let task = self.next.fetch_add(1, Ordering::SeqCst);
        if task < self.limit { Some(task) } else { None }
    }

    fn apply(&self, counts: &mut Counts, caller: u32, task: u32) -> u64 {
        counts.add(caller, task);
        counts.all
    }

    fn tell(&self, _caller: u32, answer: u64) {
        if answer <= u64::from(self.limit) {
            self.told.fetch_add(1, Ordering::SeqCst);
        }
    }
}

fn has_told(rt: &impl Abort, tasks: &Tasks, answers: u32) {
    assert!(rt; tasks.told.load(Ordering::SeqCst) == answers);
}

fn has_last(rt: &impl Abort, trail: &Trail, is_some: bool) {
    assert!(rt; !trail.is_recorded() && trail.last().is_some() == is_some);
}

/// Checks under each lock that the tasks below a limit are applied once, and their answers told once. They have this sum.
fn serves<R: Threads + Wait + Sync + Abort>(rt: &R, alloc: Global, limit: u32, sum: u64) {
    for setting in &SETTINGS {
        let Some((shape, plan)) = made(alloc, setting) else {
            panic!(rt; "there was no memory")
        };
        let tasks = Tasks::new(limit);
        let Some(root) = serve(rt, alloc, &plan, &shape, Counts::new(), &tasks) else {
            panic!(rt; "there was no memory")
        };
        has_counts(rt, &root.payload().value, u64::from(limit), sum);
        has_told(rt, &tasks, limit);
        has_last(rt, root.trail(), limit > 0);
    }
}

#[test]
fn callers_go_on_until_no_task_is_left(rt: HostRuntime) {
    serves(&rt, rt.alloc(), 1000, 499_500);
}

#[test]
fn no_task_is_no_turn(rt: HostRuntime) {
    serves(&rt, rt.alloc(), 0, 0);
}
