//! Tests of `ticket_lock`.
use lock_harness::Told::{Got, No, Not, Yes};
use lock_harness::{
    BoundedCount, Call, HOLDS, Parcel, START, Slow, carry_out, count_by, first, hold_by, second,
};
use lock_rules::{Basic, Waiters};
use ticket_lock::Ticket;

#[test]
fn two_passes_take_turns(rt: HostRuntime) {
    let moves = [
        first(Call::Begin),
        first(Call::Poll),
        second(Call::Begin),
        second(Call::Poll),
        first(Call::Waiter),
        first(Call::BeginRelease),
        second(Call::Poll),
        second(Call::Waiter),
        second(Call::BeginRelease),
    ];
    let told = [Not, Got, Not, Not, Yes, Got, Got, No, Got];
    for waiters in [Waiters::Queue, Waiters::Count] {
        let Some(outcome) = carry_out::<Ticket<Parcel>>(rt.alloc(), waiters, &moves) else {
            panic!(rt; "the script was not carried out")
        };
        assert!(rt; outcome.told.as_slice() == told.as_slice());
        assert!(rt; outcome.count == START);
    }
}

#[test]
fn a_parked_value_is_handed_over(rt: HostRuntime) {
    let moves = [
        first(Call::Begin),
        first(Call::Poll),
        second(Call::Begin),
        first(Call::Waiter),
        first(Call::Park),
        first(Call::BeginRelease),
        second(Call::Poll),
        second(Call::Unpark),
        second(Call::Waiter),
        second(Call::BeginRelease),
    ];
    let told = [Not, Got, Not, Yes, Got, Got, Got, Yes, No, Got];
    for waiters in [Waiters::Queue, Waiters::Count] {
        let Some(outcome) = carry_out::<Ticket<Parcel>>(rt.alloc(), waiters, &moves) else {
            panic!(rt; "the script was not carried out")
        };
        assert!(rt; outcome.told.as_slice() == told.as_slice());
        assert!(rt; outcome.count == START);
    }
}

#[test]
fn a_holder_parks_where_another_waits(rt: HostRuntime) {
    let moves = [
        first(Call::Begin),
        first(Call::Poll),
        second(Call::Begin),
        first(Call::Use),
        first(Call::BeginRelease),
        second(Call::Poll),
        second(Call::Use),
        second(Call::BeginRelease),
    ];
    let told = [Not, Got, Not, Yes, Got, Got, No, Got];
    for waiters in [Waiters::Queue, Waiters::Count] {
        let Some(outcome) = carry_out::<Ticket<Parcel>>(rt.alloc(), waiters, &moves) else {
            panic!(rt; "the script was not carried out")
        };
        assert!(rt; outcome.told.as_slice() == told.as_slice());
        assert!(rt; outcome.count == START + 2);
    }
}

// `acquire` and `release` wait as long as it takes
#[test]
fn a_hold_may_take_millions_of_polls(rt: HostRuntime) {
    let polls = 1_000_001;
    let Some(parcel) = hold_by::<Slow<Ticket<Parcel>>, _>(
        &rt,
        rt.alloc(),
        (Waiters::Queue, polls),
        1,
        1,
        false,
    ) else {
        panic!(rt; "there was no memory")
    };
    assert!(rt; parcel.count == 1);
    // as many in `acquire` as in `release`
    assert!(rt; parcel.waits == 2 * u64::from(polls));
}

#[test]
fn four_threads_hold_in_turn(rt: HostRuntime) {
    for (waiters, parks) in [
        (Waiters::Queue, false),
        (Waiters::Queue, true),
        (Waiters::Count, false),
        (Waiters::Count, true),
    ] {
        let Some(parcel) = hold_by::<Ticket<Parcel>, _>(&rt, rt.alloc(), waiters, 4, HOLDS, parks)
        else {
            panic!(rt; "there was no memory")
        };
        assert!(rt; parcel.count == 4 * u64::from(HOLDS));
        assert!(rt; parcel.parkings == parcel.unparkings);
        assert!(rt; !parks || parcel.met);
    }
}

#[test]
fn passes_are_made_or_the_value_comes_back(rt: HostRuntime) {
    for passes in [1, 7, 4096] {
        match Ticket::make(rt.alloc(), Waiters::Queue, passes, Parcel::new(START)) {
            Ok((lock, list)) => {
                assert!(rt; list.len() == passes as usize);
                assert!(rt; lock.close(list).count == START);
            }
            Err(refused) => {
                assert!(rt; refused.value.count == START);
                panic!(rt; "there was no memory")
            }
        }
    }
}

#[test]
fn every_hold_is_made(rt: HostRuntime) {
    for threads in [1, 2, 5] {
        let Some(parcel) = hold_by::<Ticket<Parcel>, _>(
            &rt,
            rt.alloc(),
            Waiters::Queue,
            threads,
            HOLDS,
            false,
        ) else {
            panic!(rt; "there was no memory")
        };
        assert!(rt; parcel.count == u64::from(threads) * u64::from(HOLDS));
    }
}

#[test]
fn every_count_is_made(rt: HostRuntime) {
    for threads in [1, 2, 4] {
        let count = count_by::<Ticket<BoundedCount>, _>(
            &rt,
            rt.alloc(),
            Waiters::Queue,
            threads,
            HOLDS,
        );
        assert!(rt; count == Some(u64::from(threads) * u64::from(HOLDS)));
    }
}
