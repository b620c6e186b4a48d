//! Tests of `mcs_lock`.
use lock_harness::Told::{Got, No, Not, Yes};
use lock_harness::{Call, HOLDS, Parcel, START, carry_out, first, hold_by, second};
use lock_rules::{Basic, Waiters};
use mcs_lock::Mcs;

#[test]
fn two_passes_take_turns(rt: HostRuntime) {
    let moves = [
        first(Call::Begin),
        second(Call::Begin),
        second(Call::Poll),
        first(Call::Waiter),
        first(Call::BeginRelease),
        second(Call::Poll),
        second(Call::Waiter),
        second(Call::BeginRelease),
    ];
    let told = [Got, Not, Not, Yes, Got, Got, No, Got];
    for waiters in [Waiters::Queue, Waiters::Count] {
        let Some(outcome) = carry_out::<Mcs<Parcel>>(rt.alloc(), waiters, &moves) else {
            panic!(rt; "the script was not carried out")
        };
        assert!(rt; outcome.told.as_slice() == told.as_slice());
        assert!(rt; outcome.count == START);
    }
}

#[test]
fn a_parked_value_is_handed_over(rt: HostRuntime) {
    let moves = [
        first(Call::Begin),
        second(Call::Begin),
        first(Call::Waiter),
        first(Call::Park),
        first(Call::BeginRelease),
        second(Call::Poll),
        second(Call::Unpark),
        second(Call::Waiter),
        second(Call::BeginRelease),
    ];
    let told = [Got, Not, Yes, Got, Got, Got, Yes, No, Got];
    for waiters in [Waiters::Queue, Waiters::Count] {
        let Some(outcome) = carry_out::<Mcs<Parcel>>(rt.alloc(), waiters, &moves) else {
            panic!(rt; "the script was not carried out")
        };
        assert!(rt; outcome.told.as_slice() == told.as_slice());
        assert!(rt; outcome.count == START);
    }
}

#[test]
fn a_pass_holds_again(rt: HostRuntime) {
    let moves = [
        second(Call::Begin),
        first(Call::Begin),
        second(Call::BeginRelease),
        second(Call::Begin),
        first(Call::Poll),
        first(Call::BeginRelease),
        second(Call::Poll),
        second(Call::BeginRelease),
    ];
    let told = [Got, Not, Got, Not, Got, Got, Got, Got];
    for waiters in [Waiters::Queue, Waiters::Count] {
        let Some(outcome) = carry_out::<Mcs<Parcel>>(rt.alloc(), waiters, &moves) else {
            panic!(rt; "the script was not carried out")
        };
        assert!(rt; outcome.told.as_slice() == told.as_slice());
    }
}

#[test]
fn four_threads_hold_in_turn(rt: HostRuntime) {
    for (waiters, parks) in [
        (Waiters::Queue, false),
        (Waiters::Queue, true),
        (Waiters::Count, false),
        (Waiters::Count, true),
    ] {
        let Some(parcel) = hold_by::<Mcs<Parcel>, _>(&rt, rt.alloc(), waiters, 4, HOLDS, parks)
        else {
            panic!(rt; "there was no memory")
        };
        assert!(rt; parcel.count == 4 * u64::from(HOLDS));
        assert!(rt; parcel.parkings == parcel.unparkings);
        assert!(rt; !parks || parcel.met);
    }
}

#[test]
fn passes_are_made_or_the_value_comes_back(rt: HostRuntime) {
    for passes in [1, 7, 4096] {
        match Mcs::make(rt.alloc(), Waiters::Queue, passes, Parcel::new(START)) {
            Ok((lock, list)) => {
                assert!(rt; list.len() == passes as usize);
                assert!(rt; lock.close(list).count == START);
            }
            Err(refused) => {
                assert!(rt; refused.value.count == START);
                panic!(rt; "there was no memory")
            }
        }
    }
}
