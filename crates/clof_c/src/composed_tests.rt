//! Every call of a composed lock's caller at every standing, who holds after whom, and what making answers, at locks of one to five
//! levels.
use crate::composed::{
    clof_composed_begin, clof_composed_begin_release, clof_composed_enter, clof_composed_free,
    clof_composed_poll, clof_composed_poll_release,
};
use crate::composed_codes::{ClofNumbers, NO_NUMBERS};
use crate::composed_making::clof_make_composed_of;
use level_handles::ClofComposedCaller;
use std::alloc::Global;

const DONE: u32 = 0;

const NOT_YET: u32 = 1;

const ELSEWHERE: u32 = 2;

const EMPTY: u32 = 3;

/// The texts of a lock.
#[derive(Drop)]
struct Words<'a> {
    description: &'a [u8],
    levels: &'a [u8],
    locks: &'a [u8],
    keeps: &'a [u8],
}

/// The machine on which callers stand in two packages, and in two cores of each.
const MACHINE: &[u8] = b"Package:2 Core:2 PU:1";

/// A machine with as many layers as a plan may have levels, and one more.
const DEEP: &[u8] = b"Package:2 L3Cache:2 L2Cache:1 Core:1 PU:1";

/// Locks of one to five levels, of Hemlock locks: their holder leaves by a further call where a caller is behind it.
const LOCKS: [Words<'static>; 5] = [
    Words {
        description: MACHINE,
        levels: b"machine",
        locks: b"hem",
        keeps: b"9",
    },
    Words {
        description: MACHINE,
        levels: b"package,machine",
        locks: b"hem-hem",
        keeps: b"9",
    },
    Words {
        description: MACHINE,
        levels: b"core,package,machine",
        locks: b"hem-hem-hem",
        keeps: b"9",
    },
    Words {
        description: MACHINE,
        levels: b"pu,core,package,machine",
        locks: b"hem-hem-hem-hem",
        keeps: b"9",
    },
    Words {
        description: DEEP,
        levels: b"core,l2,l3,package,machine",
        locks: b"hem-hem-hem-hem-hem",
        keeps: b"9",
    },
];

// Where the first of two callers stands.
#[derive(Clone, Copy, PartialEq, Eq, Debug, Drop)]
enum At {
    Empty,
    Idle,
    Queued,
    Holding,
    Leaving,
}

#[derive(Clone, Copy, PartialEq, Eq, Debug, Drop)]
enum Call {
    Begin,
    Enter,
    Poll,
    BeginRelease,
    PollRelease,
    Free,
}

const PLACES: [At; 5] = [At::Empty, At::Idle, At::Queued, At::Holding, At::Leaving];

const CALLS: [Call; 6] = [
    Call::Begin,
    Call::Enter,
    Call::Poll,
    Call::BeginRelease,
    Call::PollRelease,
    Call::Free,
];

// What making answers for callers on these PUs.
fn made(
    alloc: Global,
    words: &Words<'_>,
    pus: &[u32],
    handles: &mut [ClofComposedCaller],
) -> (u32, ClofNumbers) {
    let mut numbers = NO_NUMBERS;
    let code = clof_make_composed_of(
        alloc,
        words.description,
        words.levels,
        words.locks,
        words.keeps,
        pus,
        handles,
        &mut numbers,
    );
    (code, numbers)
}

// The code alone, for two callers in different packages.
fn make(alloc: Global, words: &Words<'_>, pair: &mut [ClofComposedCaller]) -> u32 {
    let (code, _) = made(alloc, words, &[0, 3], pair);
    code
}

fn answer(call: Call, alloc: Global, caller: &mut ClofComposedCaller) -> u32 {
    match call {
        Call::Begin => clof_composed_begin(alloc, caller),
        Call::Enter => clof_composed_enter(alloc, caller),
        Call::Poll => clof_composed_poll(alloc, caller),
        Call::BeginRelease => clof_composed_begin_release(alloc, caller),
        Call::PollRelease => clof_composed_poll_release(alloc, caller),
        Call::Free => clof_composed_free(alloc, caller),
    }
}

// What each call answers there, in the order of `CALLS`.
fn wanted(at: At) -> [u32; 6] {
    match at {
        At::Empty => [EMPTY; 6],
        At::Idle => [DONE, DONE, 2, 2, 2, DONE],
        At::Queued => [2, 2, NOT_YET, 2, 2, 2],
        At::Holding => [2, 2, 2, DONE, 2, 2],
        At::Leaving => [2, 2, 2, 2, NOT_YET, 2],
    }
}

// Brings the first caller to that standing.
fn bring(words: &Words<'_>, at: At, alloc: Global, pair: &mut [ClofComposedCaller; 2]) -> bool {
    if at == At::Empty {
        return true;
    }
    if make(alloc, words, pair) != DONE {
        return false;
    }
    match at {
        At::Empty | At::Idle => true,
        At::Queued => {
            clof_composed_enter(alloc, &mut pair[1]) == DONE
                && clof_composed_begin(alloc, &mut pair[0]) == NOT_YET
        }
        At::Holding => clof_composed_enter(alloc, &mut pair[0]) == DONE,
        At::Leaving => {
            clof_composed_enter(alloc, &mut pair[0]) == DONE
                && clof_composed_begin(alloc, &mut pair[1]) == NOT_YET
                && clof_composed_begin_release(alloc, &mut pair[0]) == NOT_YET
        }
    }
}

#[test]
fn each_call_of_a_composed_caller_answers_by_the_standing(rt: HostRuntime) {
    let alloc = rt.alloc();
    for words in &LOCKS {
        for at in PLACES {
            for (call, code) in CALLS.iter().zip(wanted(at).iter()) {
                let mut pair = [
                    ClofComposedCaller::empty(alloc),
                    ClofComposedCaller::empty(alloc),
                ];
                assert!(rt; bring(words, at, alloc, &mut pair), "{at:?}");
                let told = answer(*call, alloc, &mut pair[0]);
                assert_eq!(rt; told, *code, "{at:?} {call:?}");
            }
        }
    }
}

#[test]
fn the_caller_behind_holds_next(rt: HostRuntime) {
    let alloc = rt.alloc();
    for words in &LOCKS {
        let mut pair = [
            ClofComposedCaller::empty(alloc),
            ClofComposedCaller::empty(alloc),
        ];
        assert_eq!(rt; make(alloc, words, &mut pair), DONE);
        assert_eq!(rt; clof_composed_enter(alloc, &mut pair[0]), DONE);
        assert_eq!(rt; clof_composed_enter(alloc, &mut pair[1]), NOT_YET);
        assert_eq!(rt; clof_composed_poll(alloc, &mut pair[1]), NOT_YET);
        assert_eq!(rt; clof_composed_begin_release(alloc, &mut pair[0]), NOT_YET);
        assert_eq!(rt; clof_composed_poll(alloc, &mut pair[1]), DONE);
        assert_eq!(rt; clof_composed_poll_release(alloc, &mut pair[0]), DONE);
        assert_eq!(rt; clof_composed_free(alloc, &mut pair[1]), ELSEWHERE);
        assert_eq!(rt; clof_composed_free(alloc, &mut pair[0]), DONE);
        assert_eq!(rt; clof_composed_begin_release(alloc, &mut pair[1]), DONE);
        assert_eq!(rt; clof_composed_free(alloc, &mut pair[1]), DONE);
        assert_eq!(rt; clof_composed_free(alloc, &mut pair[1]), EMPTY);
    }
}

#[test]
fn making_a_composed_lock_answers_by_the_handles(rt: HostRuntime) {
    let alloc = rt.alloc();
    for words in &LOCKS {
        let mut pair = [
            ClofComposedCaller::empty(alloc),
            ClofComposedCaller::empty(alloc),
        ];
        assert_eq!(rt; made(alloc, words, &[], &mut []), (6, NO_NUMBERS));
        assert_eq!(rt; make(alloc, words, &mut pair[..1]), 6);
        assert_eq!(rt; make(alloc, words, &mut pair), DONE);
        assert_eq!(rt; make(alloc, words, &mut pair), 5);
        assert_eq!(rt; clof_composed_free(alloc, &mut pair[0]), DONE);
        assert_eq!(rt; make(alloc, words, &mut pair), 5);
        assert_eq!(rt; clof_composed_free(alloc, &mut pair[1]), DONE);
        assert_eq!(rt; make(alloc, words, &mut pair), DONE);
    }
}

// The texts of a plan, and the code and numbers that they are refused with.
const REFUSED: [(&[u8], &[u8], &[u8], &[u8], u32, u64, u64); 12] = [
    (b"", b"machine", b"mcs", b"9", 21, 0, 0),
    (
        b"Package:2 Cores:2 PU:1",
        b"machine",
        b"mcs",
        b"9",
        22,
        10,
        0,
    ),
    (b"Package:0 PU:1", b"machine", b"mcs", b"9", 23, 0, 0),
    (
        b"Package:2 PU:2(indexes=0,1)",
        b"machine",
        b"mcs",
        b"9",
        31,
        2,
        4,
    ),
    (
        b"PU:2(indexes=0,4096)",
        b"machine",
        b"mcs",
        b"9",
        32,
        4096,
        0,
    ),
    (b"PU:2(indexes=1,1)", b"machine", b"mcs", b"9", 33, 1, 0),
    (MACHINE, b"core,die,machine", b"mcs-mcs-mcs", b"9", 41, 1, 0),
    (MACHINE, b"machine,package", b"mcs-mcs", b"9", 43, 1, 0),
    (MACHINE, b"package,machine", b"mcs-tas", b"9", 44, 1, 0),
    (MACHINE, b"package,machine", b"mcs", b"9", 45, 2, 1),
    (MACHINE, b"package,machine", b"mcs-mcs", b"65536", 46, 0, 0),
    (
        DEEP,
        b"pu,core,l2,l3,package,machine",
        b"mcs-mcs-mcs-mcs-mcs-mcs",
        b"9",
        42,
        0,
        0,
    ),
];

#[test]
fn refused_texts_are_told_with_their_place(rt: HostRuntime) {
    let alloc = rt.alloc();
    for (description, levels, locks, keeps, code, first, second) in REFUSED {
        let words = Words {
            description,
            levels,
            locks,
            keeps,
        };
        let mut pair = [
            ClofComposedCaller::empty(alloc),
            ClofComposedCaller::empty(alloc),
        ];
        let told = made(alloc, &words, &[0, 1], &mut pair);
        assert_eq!(rt; told, (code, ClofNumbers { first, second }));
        assert_eq!(rt; clof_composed_begin(alloc, &mut pair[0]), EMPTY);
    }
}

#[test]
fn callers_stand_on_the_machine_and_kinds_may_be_left_out(rt: HostRuntime) {
    let alloc = rt.alloc();
    let words = Words {
        description: MACHINE,
        levels: b"package,machine",
        locks: b"",
        keeps: b"9",
    };
    let mut pair = [
        ClofComposedCaller::empty(alloc),
        ClofComposedCaller::empty(alloc),
    ];
    let told = made(alloc, &words, &[3, 4], &mut pair);
    assert_eq!(rt;
        told,
        (
            10,
            ClofNumbers {
                first: 1,
                second: 0
            }
        )
    );
    assert_eq!(rt; make(alloc, &words, &mut pair), DONE);
    assert_eq!(rt; clof_composed_enter(alloc, &mut pair[1]), DONE);
}
