//! Gates that are told when a caller is queued for the lock, and when it holds it.
use crossbeam_utils::Backoff;
use placed_runner::Gate;
use std::process::Abort;
use std::sync::atomic::{AtomicU32, Ordering};

// A gate that counts how often callers told it that they hold the lock.
#[derive(Drop)]
pub(super) struct Counter {
    inside: AtomicU32,
}

impl Counter {
    pub(super) fn new() -> Counter {
        Counter {
            inside: AtomicU32::new(0),
        }
    }

    pub(super) fn count(&self) -> usize {
        self.inside.load(Ordering::SeqCst) as usize
    }
}

impl Gate for Counter {
    fn queued(&self, _caller: u32) {}

    fn inside(&self, _caller: u32) {
        self.inside.fetch_add(1, Ordering::SeqCst);
    }
}

// How often the first holder looks whether the other caller is queued.
const LOOKS: u64 = 10_000_000;

// A gate at which the first of two callers that holds waits until the other is queued.
#[derive(Drop)]
pub(super) struct Meeting {
    queued: [AtomicU32; 2],
    inside: [AtomicU32; 2],
    holds: AtomicU32,
    missed: AtomicU32,
}

impl Meeting {
    pub(super) fn new() -> Meeting {
        Meeting {
            queued: [AtomicU32::new(0), AtomicU32::new(0)],
            inside: [AtomicU32::new(0), AtomicU32::new(0)],
            holds: AtomicU32::new(0),
            missed: AtomicU32::new(0),
        }
    }

    // Whether the two met, and each told once that it is queued and once that it holds.
    pub(super) fn met(&self) -> bool {
        let missed = self.missed.load(Ordering::SeqCst) > 0;
        !missed && told_once(&self.queued) && told_once(&self.inside)
    }

    // Waits until a caller is queued, and notes where it isn't.
    fn await_queued(&self, other: &AtomicU32) {
        let backoff = Backoff::new();
        for _ in 0..LOOKS {
            if other.load(Ordering::SeqCst) > 0 {
                return;
            }
            backoff.snooze();
        }
        self.missed.store(1, Ordering::SeqCst);
    }
}

// Whether each of two was counted once.
fn told_once(both: &[AtomicU32; 2]) -> bool {
    both[0].load(Ordering::SeqCst) == 1 && both[1].load(Ordering::SeqCst) == 1
}

// That of a caller, of two.
fn of(both: &[AtomicU32; 2], caller: u32) -> &AtomicU32 {
    match caller {
        0 => &both[0],
        _ => &both[1],
    }
}

impl Gate for Meeting {
    fn queued(&self, caller: u32) {
        of(&self.queued, caller).fetch_add(1, Ordering::SeqCst);
    }

    fn inside(&self, caller: u32) {
        of(&self.inside, caller).fetch_add(1, Ordering::SeqCst);
        if self.holds.fetch_add(1, Ordering::SeqCst) == 0 {
            self.await_queued(of(&self.queued, 1 - caller.min(1)));
        }
    }
}

// Checks that the callers of a command line met.
pub(super) fn have_met(rt: &impl Abort, line: &str, gate: &Meeting) {
    assert!(rt; gate.met(), "at {line}");
}
