//! Every call at every standing, and the order of a queue, at each of the four locks.
use crate::calls::{
    clof_begin, clof_begin_release, clof_enter, clof_free, clof_poll, clof_poll_release,
    clof_waiters,
};
use crate::making::{clof_make_clh, clof_make_hemlock, clof_make_mcs, clof_make_ticket};
use lock_handles::ClofCaller;
use std::alloc::Global;

const DONE: u32 = 0;

const NOT_YET: u32 = 1;

const ELSEWHERE: u32 = 2;

const EMPTY: u32 = 3;

const IN_USE: u32 = 5;

const REFUSED: u32 = 6;

#[derive(Clone, Copy, PartialEq, Eq, Debug, Drop)]
enum Kind {
    Ticket,
    Mcs,
    Clh,
    Hemlock,
}

// Where the first of two callers stands. At `Followed` it holds and the other is queued.
#[derive(Clone, Copy, PartialEq, Eq, Debug, Drop)]
enum At {
    Empty,
    Idle,
    Queued,
    Holding,
    Followed,
    Leaving,
}

#[derive(Clone, Copy, PartialEq, Eq, Debug, Drop)]
enum Call {
    Begin,
    Enter,
    Poll,
    BeginRelease,
    PollRelease,
    Waiters,
    Free,
}

const KINDS: [Kind; 4] = [Kind::Ticket, Kind::Mcs, Kind::Clh, Kind::Hemlock];

const CALLS: [Call; 7] = [
    Call::Begin,
    Call::Enter,
    Call::Poll,
    Call::BeginRelease,
    Call::PollRelease,
    Call::Waiters,
    Call::Free,
];

fn make(kind: Kind, alloc: Global, handles: &mut [ClofCaller]) -> u32 {
    match kind {
        Kind::Ticket => clof_make_ticket(alloc, handles),
        Kind::Mcs => clof_make_mcs(alloc, handles),
        Kind::Clh => clof_make_clh(alloc, handles),
        Kind::Hemlock => clof_make_hemlock(alloc, handles),
    }
}

fn answer(call: Call, alloc: Global, caller: &mut ClofCaller) -> u32 {
    match call {
        Call::Begin => clof_begin(alloc, caller),
        Call::Enter => clof_enter(alloc, caller),
        Call::Poll => clof_poll(alloc, caller),
        Call::BeginRelease => clof_begin_release(alloc, caller),
        Call::PollRelease => clof_poll_release(alloc, caller),
        Call::Waiters => clof_waiters(alloc, caller),
        Call::Free => clof_free(alloc, caller),
    }
}

// What each call answers there, in the order of `CALLS`. A Ticket or a CLH lock is polled before it is held, and a Hemlock lock waits for
// the caller behind it to take the grant.
fn answers(kind: Kind, at: At) -> [u32; 7] {
    let polled = matches!(kind, Kind::Ticket | Kind::Clh);
    let begun = if polled { NOT_YET } else { DONE };
    let left = if kind == Kind::Hemlock { NOT_YET } else { DONE };
    match at {
        At::Empty => [EMPTY; 7],
        At::Idle => [begun, DONE, 2, 2, 2, 2, DONE],
        At::Queued => [2, 2, NOT_YET, 2, 2, 2, 2],
        At::Holding => [2, 2, 2, DONE, 2, DONE, 2],
        At::Followed => [2, 2, 2, left, 2, NOT_YET, 2],
        At::Leaving => [2, 2, 2, 2, NOT_YET, 2, 2],
    }
}

// Brings the first caller to that standing.
fn bring(kind: Kind, at: At, alloc: Global, pair: &mut [ClofCaller; 2]) -> bool {
    if at == At::Empty {
        return true;
    }
    if make(kind, alloc, pair) != DONE {
        return false;
    }
    match at {
        At::Empty | At::Idle => true,
        At::Queued => {
            clof_enter(alloc, &mut pair[1]) == DONE && clof_begin(alloc, &mut pair[0]) == NOT_YET
        }
        At::Holding => clof_enter(alloc, &mut pair[0]) == DONE,
        At::Followed => {
            clof_enter(alloc, &mut pair[0]) == DONE && clof_begin(alloc, &mut pair[1]) == NOT_YET
        }
        At::Leaving => {
            clof_enter(alloc, &mut pair[0]) == DONE
                && clof_begin(alloc, &mut pair[1]) == NOT_YET
                && clof_begin_release(alloc, &mut pair[0]) == NOT_YET
        }
    }
}

// What a call answers at a standing. A caller of a Hemlock lock alone comes to `Leaving` in one thread.
fn answered(kind: Kind, at: At, call: Call, alloc: Global) -> Option<u32> {
    let mut pair = [ClofCaller::empty(alloc), ClofCaller::empty(alloc)];
    if !bring(kind, at, alloc, &mut pair) {
        return None;
    }
    Some(answer(call, alloc, &mut pair[0]))
}

#[test]
fn each_call_answers_by_the_standing(rt: HostRuntime) {
    let places = [At::Empty, At::Idle, At::Queued, At::Holding, At::Followed];
    for kind in KINDS {
        for at in places {
            let wanted = answers(kind, at);
            for (call, code) in CALLS.iter().zip(wanted.iter()) {
                let told = answered(kind, at, *call, rt.alloc());
                assert_eq!(rt; told, Some(*code), "{kind:?} {at:?} {call:?}");
            }
        }
    }
    let wanted = answers(Kind::Hemlock, At::Leaving);
    for (call, code) in CALLS.iter().zip(wanted.iter()) {
        let told = answered(Kind::Hemlock, At::Leaving, *call, rt.alloc());
        assert_eq!(rt; told, Some(*code), "leaving {call:?}");
    }
}

#[test]
fn making_answers_by_the_handles(rt: HostRuntime) {
    let alloc = rt.alloc();
    for kind in KINDS {
        let mut pair = [ClofCaller::empty(alloc), ClofCaller::empty(alloc)];
        assert_eq!(rt; make(kind, alloc, &mut []), REFUSED);
        assert_eq!(rt; make(kind, alloc, &mut pair), DONE);
        assert_eq!(rt; make(kind, alloc, &mut pair), IN_USE);
        assert_eq!(rt; clof_free(alloc, &mut pair[0]), DONE);
        assert_eq!(rt; clof_free(alloc, &mut pair[0]), EMPTY);
        assert_eq!(rt; make(kind, alloc, &mut pair), IN_USE);
        assert_eq!(rt; clof_enter(alloc, &mut pair[1]), DONE);
        assert_eq!(rt; clof_free(alloc, &mut pair[1]), ELSEWHERE);
        assert_eq!(rt; clof_begin_release(alloc, &mut pair[1]), DONE);
        assert_eq!(rt; clof_free(alloc, &mut pair[1]), DONE);
        assert_eq!(rt; make(kind, alloc, &mut pair), DONE);
    }
}

// The rest of a release, where the caller behind has taken the lock.
fn rest_of(left: u32, alloc: Global, caller: &mut ClofCaller) -> u32 {
    if left == NOT_YET {
        clof_poll_release(alloc, caller)
    } else {
        left
    }
}

#[test]
fn callers_hold_in_the_order_of_the_queue(rt: HostRuntime) {
    let alloc = rt.alloc();
    for kind in KINDS {
        let mut three = [
            ClofCaller::empty(alloc),
            ClofCaller::empty(alloc),
            ClofCaller::empty(alloc),
        ];
        assert_eq!(rt; make(kind, alloc, &mut three), DONE);
        assert_eq!(rt; clof_enter(alloc, &mut three[0]), DONE);
        assert_eq!(rt; clof_begin(alloc, &mut three[2]), NOT_YET);
        assert_eq!(rt; clof_enter(alloc, &mut three[1]), NOT_YET);
        let left = clof_begin_release(alloc, &mut three[0]);
        assert_eq!(rt; clof_poll(alloc, &mut three[1]), NOT_YET);
        assert_eq!(rt; clof_poll(alloc, &mut three[2]), DONE);
        assert_eq!(rt; rest_of(left, alloc, &mut three[0]), DONE);
        assert_eq!(rt; clof_waiters(alloc, &mut three[2]), NOT_YET);
        let left = clof_begin_release(alloc, &mut three[2]);
        assert_eq!(rt; clof_poll(alloc, &mut three[1]), DONE);
        assert_eq!(rt; rest_of(left, alloc, &mut three[2]), DONE);
        assert_eq!(rt; clof_waiters(alloc, &mut three[1]), DONE);
        assert_eq!(rt; clof_begin_release(alloc, &mut three[1]), DONE);
    }
}
