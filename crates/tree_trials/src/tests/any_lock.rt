//! Tests of a lock of any kind.
use lock_harness::Call::{Begin, BeginRelease, Park, Poll, PollRelease, Unpark, Waiter};
use lock_harness::Told::{self, Got, No, Not, Yes};
use lock_harness::{Move, Parcel, START, carry_out, first, second};
use lock_levels::{AnyLock, LockKind};
use lock_rules::Basic;
use std::alloc::Global;
use std::process::Abort;

/// Whether two passes of a lock of this kind that make these moves are told this, and find the number in the value at the end.
fn plays(alloc: Global, kind: LockKind, moves: &[Move], told: &[Told]) -> bool {
    match carry_out::<AnyLock<Parcel>>(alloc, kind, moves) {
        Some(outcome) => outcome.told.as_slice() == told && outcome.count == START,
        None => false,
    }
}

fn plays_each(rt: &impl Abort, alloc: Global, kinds: &[LockKind], moves: &[Move], told: &[Told]) {
    for kind in kinds {
        assert!(rt; plays(alloc, *kind, moves, told));
    }
}

#[test]
fn a_pass_of_a_ticket_and_of_a_clh_lock_looks_by_polls_alone(rt: HostRuntime) {
    let kinds = [LockKind::Tkt, LockKind::Clh, LockKind::TktC, LockKind::ClhC];
    let moves = [
        first(Begin),
        first(Poll),
        second(Begin),
        second(Poll),
        first(Waiter),
        first(BeginRelease),
        second(Poll),
        second(Waiter),
        second(BeginRelease),
    ];
    let told = [Not, Got, Not, Not, Yes, Got, Got, No, Got];
    plays_each(&rt, rt.alloc(), &kinds, &moves, &told);
}

#[test]
fn a_pass_of_an_mcs_lock_lets_its_successor_go_on(rt: HostRuntime) {
    let kinds = [LockKind::Mcs, LockKind::McsC];
    let moves = [
        first(Begin),
        second(Begin),
        second(Poll),
        first(Waiter),
        first(Park),
        first(BeginRelease),
        second(Poll),
        second(Unpark),
        second(Waiter),
        second(BeginRelease),
    ];
    let told = [Got, Not, Not, Yes, Got, Got, Got, Yes, No, Got];
    plays_each(&rt, rt.alloc(), &kinds, &moves, &told);
}

#[test]
fn a_pass_of_a_hemlock_waits_until_its_grant_is_cleared(rt: HostRuntime) {
    let kinds = [LockKind::Hem, LockKind::HemC];
    let moves = [
        first(Begin),
        second(Begin),
        second(Poll),
        first(Waiter),
        first(BeginRelease),
        first(PollRelease),
        second(Poll),
        first(PollRelease),
        second(Waiter),
        second(BeginRelease),
    ];
    let told = [Got, Not, Not, Yes, Not, Not, Got, Got, No, Got];
    plays_each(&rt, rt.alloc(), &kinds, &moves, &told);
}

/// Whether a lock of this kind tells it, and gives its value back.
fn is_of_kind(alloc: Global, kind: LockKind) -> bool {
    match AnyLock::make(alloc, kind, 3, Parcel::new(START)) {
        Ok((lock, passes)) => {
            let told = lock.kind();
            lock.close(passes).count == START && told == kind
        }
        Err(refused) => refused.value.count == START,
    }
}

#[test]
fn a_lock_is_of_the_kind_that_was_asked_for(rt: HostRuntime) {
    for kind in [
        LockKind::Tkt,
        LockKind::Mcs,
        LockKind::Clh,
        LockKind::Hem,
        LockKind::TktC,
        LockKind::McsC,
        LockKind::ClhC,
        LockKind::HemC,
    ] {
        assert!(rt; is_of_kind(rt.alloc(), kind));
    }
}
