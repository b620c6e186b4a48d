//! Vectors: each is played through the public calls, and compared with the turns that it must give and with the plain checker.
ghost use Rattle.std.specs.Prelude.{◌≡◌, ◌≢◌, ◌^◌, ◌<◌, [], sum, true, All, IfSome, IsSome, IsTrue};
ghost use Rattle.std.specs.Bool.{OnTrue};
ghost use Rattle.keep_local.specs.Turns.{Begins};

use keep_local::{ClosedReceipt, Shape, Share, Trail, Turn, begins, is_lawful, run_of};
use out_of_memory::OutOfMemory;
use sequence::Sequence;
use std::alloc::Global;

/// A shape, the quotas, and the turns that the callers make in this order, with the tests that each release found.
#[derive(Clone, Copy)]
struct Case {
    paths: &'static [&'static [u32]],
    keeps: &'static [u32],
    quotas: &'static [u32],
    // The caller, the climb, the tests and the level left at.
    turns: &'static [(u32, u32, u32, u32)],
}

fn turns_of(alloc: Global, rows: &[(u32, u32, u32, u32)]) -> Result<Vec<Turn>, OutOfMemory> {
    let mut turns = Vec::new(alloc);
    for (caller, climb, tests, left) in rows.iter().copied() {
        turns.push(Turn {
            caller,
            climb,
            tests,
            left,
        })?;
    }
    Ok(turns)
}

fn list_of(alloc: Global, numbers: &[u32]) -> Result<Sequence<u32>, OutOfMemory> {
    Ok(Sequence::from_vec(numbers.to_vec(alloc)?))
}

fn shape_of(alloc: Global, case: &Case) -> Result<Shape, OutOfMemory> {
    let mut paths = Vec::new(alloc);
    for path in case.paths {
        paths.push(list_of(alloc, path)?)?;
    }
    Ok(Shape {
        paths: Sequence::from_vec(paths),
        keeps: list_of(alloc, case.keeps)?,
    })
}

// Whether the quotas add up to less than 2^32.
fn fits(quotas: &[u32]) -> bool
    ensures { OnTrue result (sum quotas.now < 2 ^ 32) }
{
    let mut total: u64 = 0;
    for quota in quotas {
        total += u64::from(*quota);
        if total >= 1 << 32 {
            return false;
        }
    }
    true
}

// A release as a lock of several levels makes it: it notes level after level, and leaves at the first that is due.
fn release(trail: &mut Trail, tests: u32)
    requires open { IsSome trail.old.current }
    requires fresh { trail.old.noted ≡ 0 }
    ensures name { trail.new.name ≡ trail.old.name }
    ensures receipts { trail.new.receipts ≡ trail.old.receipts }
    ensures recorded { trail.new.recorded ≡ trail.old.recorded }
{
    let top = trail.shape().keeps.as_slice().len() as u32;
    for level in 0..top {
        let queued = (tests >> level) & 1 == 1;
        trail.note(level, queued);
        if queued && trail.run(level) < trail.shape().keeps.as_slice()[level as usize] {
            trail.leave(level);
            return;
        }
    }
    trail.leave(top);
}

// Whether a turn may begin behind the closed ones of a trail.
fn may_begin(trail: &Trail, turn: Turn) -> bool
    ensures { IsTrue result → Begins trail.now.shape trail.now.closed turn }
{
    match trail.last() {
        Some(last) => begins(trail.shape(), &[last], turn),
        None => begins(trail.shape(), &[], turn),
    }
}

// One hold of the share's caller. The answer is no where it can't begin.
fn hold(trail: &mut Trail, share: &mut Share, tests: u32) -> bool
    requires own { share.old.name ≡ trail.old.name }
    ensures trail { trail.new.name ≡ trail.old.name }
    ensures receipts { trail.new.receipts ≡ trail.old.receipts }
    ensures recorded { trail.new.recorded ≡ trail.old.recorded }
    ensures share { share.new.name ≡ share.old.name }
{
    if trail.is_open() || !share.may_turn() {
        return false;
    }
    let top = trail.shape().keeps.as_slice().len() as u32;
    let climb = trail.last().map_or(top, |last| last.left);
    let turn = Turn {
        caller: share.caller(),
        climb,
        tests: 0,
        left: top,
    };
    if !may_begin(trail, turn) {
        return false;
    }
    trail.open(share, climb);
    release(trail, tests);
    true
}

// Whether the trail has just these turns, and the plain checker finds them lawful.
fn has_turns(trail: &Trail, turns: &[Turn]) -> bool
    requires { trail.now.recorded ≡ true }
{
    let found = trail.turns();
    found == turns && is_lawful(trail.shape(), found)
}

// Whether the trail counts each run as the plain checker does, also of levels that it doesn't have.
fn has_runs(trail: &Trail) -> bool
    requires { trail.now.recorded ≡ true }
{
    counts_runs(trail, trail.turns())
}

// Whether the trail agrees with a share on the number of its caller's turns.
fn agrees(trail: &mut Trail, share: &mut Share) -> bool
    requires own { share.old.name ≡ trail.old.name }
    requires recorded { trail.old.recorded ≡ true }
    ensures trail { trail.new ≡ trail.old }
    ensures share { share.new ≡ share.old }
{
    let caller = share.caller();
    let turns = trail.turns().iter();
    let count = turns.filter(|turn| turn.caller == caller).count();
    trail.agree(share) as usize == count && share.made() as usize == count
}

fn all_agree(trail: &mut Trail, shares: &mut [Share]) -> bool
    requires own { All (λ share. share.name ≡ trail.old.name) shares.old }
    requires recorded { trail.old.recorded ≡ true }
    ensures { trail.new ≡ trail.old }
{
    for share in shares.iter_mut() {
        if !agrees(trail, share) {
            return false;
        }
    }
    true
}

// Plays a case to its end. The answer is no where it can't be played, or where the trail differs from it.
fn plays(alloc: Global, case: &Case) -> Result<bool, OutOfMemory> {
    let shape = shape_of(alloc, case)?;
    let callers = shape.paths.as_slice().len();
    if !shape.is_well_formed()
        || callers > 100
        || callers != case.quotas.len()
        || !fits(case.quotas)
    {
        return Ok(false);
    }
    let turns = turns_of(alloc, case.turns)?;
    let (mut trail, mut shares) = Trail::reserve(alloc, shape, case.quotas)?;
    for turn in &turns {
        let caller = turn.caller as usize;
        if caller >= shares.len() || !hold(&mut trail, &mut shares[caller], turn.tests) {
            return Ok(false);
        }
    }
    let agree = all_agree(&mut trail, shares.as_mut_slice());
    Ok(agree && has_turns(&trail, &turns) && has_runs(&trail))
}

// One hold, which has to be this turn.
fn hold_as(trail: &mut Trail, share: &mut Share, turn: Turn) -> bool
    requires own { share.old.name ≡ trail.old.name }
    ensures trail { trail.new.name ≡ trail.old.name }
    ensures share { share.new.name ≡ share.old.name }
{
    hold(trail, share, turn.tests) && trail.last() == Some(turn)
}

// Plays a case to its end over a trail that keeps no turns. The answer is no where it can't be played, or where a turn or a count differs.
fn plays_unrecorded(alloc: Global, case: &Case) -> Result<bool, OutOfMemory> {
    let shape = shape_of(alloc, case)?;
    let callers = shape.paths.as_slice().len();
    if !shape.is_well_formed() || callers > 100 || callers != case.quotas.len() {
        return Ok(false);
    }
    let turns = turns_of(alloc, case.turns)?;
    let (mut trail, mut shares) = Trail::unrecorded(alloc, shape)?;
    for turn in &turns {
        let caller = turn.caller as usize;
        if caller >= shares.len() || !hold_as(&mut trail, &mut shares[caller], *turn) {
            return Ok(false);
        }
    }
    Ok(!trail.is_recorded() && counts_runs(&trail, &turns) && counts_turns(&shares, &turns))
}

// Whether a trail counts each run as the plain checker does for these turns.
fn counts_runs(trail: &Trail, turns: &[Turn]) -> bool {
    for level in 0..40 {
        if trail.run(level) as usize != run_of(turns, level) {
            return false;
        }
    }
    true
}

// Whether each share has made as many of these turns as there are of its caller.
fn counts_turns(shares: &[Share], turns: &[Turn]) -> bool {
    for share in shares {
        let caller = share.caller();
        let count = turns.iter().filter(|turn| turn.caller == caller).count();
        if share.turns_made() != count as u64 {
            return false;
        }
    }
    true
}

// Two callers under one node, which keeps the lock once.
const KEPT_ONCE: Case = Case {
    paths: &[&[0, 0], &[0, 0]],
    keeps: &[1],
    quotas: &[1, 1],
    turns: &[(0, 1, 1, 0), (1, 0, 0, 1)],
};

// The same, where the node never keeps the lock.
const NEVER_KEPT: Case = Case {
    paths: &[&[0, 0], &[0, 0]],
    keeps: &[0],
    quotas: &[1, 1],
    turns: &[(0, 1, 1, 1), (1, 1, 0, 1)],
};

// Three callers: the second turn leaves at the top, because the keep of 1 is reached.
const KEEP_REACHED: Case = Case {
    paths: &[&[0, 0], &[0, 0], &[0, 0]],
    keeps: &[1],
    quotas: &[1, 1, 1],
    turns: &[(0, 1, 1, 0), (1, 0, 1, 1), (2, 1, 0, 1)],
};

// Cores, caches, dies, packages and the machine: each turn hands the lock over one level further out.
const FURTHER_OUT: Case = Case {
    paths: &[
        &[0, 0, 0, 0, 0],
        &[0, 0, 0, 0, 0],
        &[1, 0, 0, 0, 0],
        &[2, 1, 0, 0, 0],
        &[3, 2, 1, 1, 0],
    ],
    keeps: &[128, 128, 128, 128],
    quotas: &[1, 1, 1, 1, 1],
    turns: &[
        (0, 4, 1, 0),
        (1, 0, 2, 1),
        (2, 1, 4, 2),
        (3, 2, 0, 4),
        (4, 4, 0, 4),
    ],
};

const ONE_LEVEL: Case = Case {
    paths: &[&[0], &[0]],
    keeps: &[],
    quotas: &[2, 1],
    turns: &[(0, 0, 0, 0), (1, 0, 0, 0), (0, 0, 0, 0)],
};

const THREE_LEVELS: Case = Case {
    paths: &[&[0, 0, 0], &[0, 0, 0], &[1, 0, 0], &[2, 1, 0]],
    keeps: &[2, 1],
    quotas: &[2, 1, 2, 1],
    turns: &[
        (0, 2, 1, 0),
        (1, 0, 1, 0),
        (0, 0, 3, 1),
        (2, 1, 1, 0),
        (2, 0, 2, 2),
        (3, 2, 0, 2),
    ],
};

// One caller alone, whose second level keeps the lock 65,535 times, and whose first never does.
const FOUR_LEVELS: Case = Case {
    paths: &[&[0, 0, 0, 0]],
    keeps: &[0, 65_535, 1],
    quotas: &[4],
    turns: &[(0, 3, 3, 1), (0, 1, 4, 2), (0, 2, 2, 1), (0, 1, 4, 3)],
};

const FIVE_LEVELS: Case = Case {
    paths: &[&[0, 0, 0, 0, 0], &[0, 0, 0, 0, 0]],
    keeps: &[3, 0, 1, 2],
    quotas: &[4, 5],
    turns: &[
        (0, 4, 1, 0),
        (1, 0, 1, 0),
        (0, 0, 1, 0),
        (1, 0, 7, 2),
        (0, 2, 14, 3),
        (1, 3, 6, 2),
        (0, 2, 14, 3),
        (1, 3, 10, 4),
    ],
};

const NO_CALLERS: Case = Case {
    paths: &[],
    keeps: &[5],
    quotas: &[],
    turns: &[],
};

#[test]
fn the_trail_of_each_case_is_its_turns(rt: HostRuntime) {
    let cases = [
        KEPT_ONCE,
        NEVER_KEPT,
        KEEP_REACHED,
        FURTHER_OUT,
        ONE_LEVEL,
        THREE_LEVELS,
        FOUR_LEVELS,
        FIVE_LEVELS,
        NO_CALLERS,
    ];
    for case in &cases {
        let Ok(true) = plays(rt.alloc(), case) else {
            panic!(rt; "a case is played otherwise")
        };
        let Ok(true) = plays_unrecorded(rt.alloc(), case) else {
            panic!(rt; "a case is played otherwise where no turns are kept")
        };
    }
}

// How many turns in a row leave at a level with this keep, where another caller is always queued.
fn longest_run(alloc: Global, keep: u16) -> Result<Option<usize>, OutOfMemory> {
    let keep = u32::from(keep);
    let shape = Shape {
        paths: Sequence::from_vec(vec![in alloc; list_of(alloc, &[0, 0])?]?),
        keeps: list_of(alloc, &[keep])?,
    };
    if !shape.is_well_formed() || shape.paths.as_slice().len() != 1 {
        return Ok(None);
    }
    let (mut trail, mut shares) = Trail::reserve(alloc, shape, &[keep + 2])?;
    let Some(mut share) = shares.pop() else {
        return Ok(None);
    };
    for _turn in 0..keep + 2 {
        if !hold(&mut trail, &mut share, 1) {
            return Ok(None);
        }
    }
    let turns = trail.turns().iter();
    Ok(Some(turns.take_while(|turn| turn.left == 0).count()))
}

#[test]
fn a_run_ends_at_its_keep(rt: HostRuntime) {
    for keep in [0, 1, 2, 65_535] {
        let Ok(Some(turns)) = longest_run(rt.alloc(), keep) else {
            panic!(rt; "the turns could not be made")
        };
        assert!(rt; turns == usize::from(keep));
    }
}

fn is_found_lawful(alloc: Global, case: &Case) -> Result<bool, OutOfMemory> {
    let shape = shape_of(alloc, case)?;
    let turns = turns_of(alloc, case.turns)?;
    Ok(shape.keeps.as_slice().len() <= 32 && is_lawful(&shape, &turns))
}

#[test]
fn other_turns_are_not_lawful(rt: HostRuntime) {
    let lists: [&[(u32, u32, u32, u32)]; 9] = [
        // the first climbs lower than the top
        &[(0, 1, 1, 0)],
        // a climb that isn't the level left at before
        &[(0, 2, 1, 0), (1, 1, 0, 2)],
        // a caller under another node
        &[(0, 2, 1, 0), (2, 0, 0, 2)],
        // the lock kept without another caller queued
        &[(0, 2, 0, 0)],
        // the lock kept once more than the keep
        &[(0, 2, 1, 0), (1, 0, 1, 0), (0, 0, 1, 0)],
        // a lower level passed over that is due
        &[(0, 2, 3, 1)],
        // a level passed over that is due
        &[(0, 2, 2, 2)],
        // a test above the level left at
        &[(0, 2, 3, 0)],
        // a test at the top
        &[(0, 2, 4, 2)],
    ];
    for turns in lists {
        let case = Case {
            turns,
            ..THREE_LEVELS
        };
        let Ok(false) = is_found_lawful(rt.alloc(), &case) else {
            panic!(rt; "turns that are not lawful were found so")
        };
    }
}

#[test]
fn other_paths_are_not_well_formed(rt: HostRuntime) {
    let lists: [&[&[u32]]; 5] = [
        // a path that is too short, and one that is too long
        &[&[0]],
        &[&[0, 0, 0]],
        // a gap in the nodes of a level
        &[&[0, 0], &[2, 0]],
        // another node than 0 at the top
        &[&[0, 1]],
        // callers who part again
        &[&[0, 0], &[0, 1]],
    ];
    for paths in lists {
        let case = Case { paths, ..KEPT_ONCE };
        let Ok(shape) = shape_of(rt.alloc(), &case) else {
            panic!(rt; "there was no memory")
        };
        assert!(rt; !shape.is_well_formed());
    }
}

// A receipt of the closed turns, where there are some and none is open.
fn receipt_of(trail: &mut Trail) -> Option<ClosedReceipt>
    requires recorded { trail.old.recorded ≡ true }
    ensures own { IfSome result (λ receipt. receipt.name ≡ trail.old.receipts) }
    ensures some { IfSome result (λ receipt. receipt.tests ≢ []) }
    ensures trail { trail.new ≡ trail.old }
{
    if trail.is_open() || trail.turns().is_empty() {
        return None;
    }
    Some(trail.receipt())
}

// Whether a receipt that is given behind the first turn is agreed on behind the second, and changes nothing.
fn is_agreed_on(alloc: Global) -> Result<bool, OutOfMemory> {
    let shape = shape_of(alloc, &KEPT_ONCE)?;
    let callers = shape.paths.as_slice().len();
    if !shape.is_well_formed() || callers != 2 {
        return Ok(false);
    }
    let (mut trail, mut shares) = Trail::reserve(alloc, shape, &[1, 1])?;
    let turns = turns_of(alloc, KEPT_ONCE.turns)?;
    if shares.len() != 2 || !hold(&mut trail, &mut shares[0], 1) {
        return Ok(false);
    }
    let Some(mut receipt) = receipt_of(&mut trail) else {
        return Ok(false);
    };
    let held = hold(&mut trail, &mut shares[1], 0);
    trail.agree_on(&mut receipt);
    Ok(held && has_turns(&trail, &turns))
}

#[test]
fn a_receipt_is_agreed_on_behind_later_turns(rt: HostRuntime) {
    let Ok(true) = is_agreed_on(rt.alloc()) else {
        panic!(rt; "the receipt or a turn was refused")
    };
}

fn sent<T: Send>(value: T) -> T {
    value
}

#[test]
fn a_trail_and_its_shares_may_go_to_other_threads(rt: HostRuntime) {
    let Ok(shape) = shape_of(rt.alloc(), &NO_CALLERS) else {
        panic!(rt; "there was no memory")
    };
    assert!(rt; shape.is_well_formed() && shape.paths.as_slice().is_empty());
    let Ok((trail, shares)) = Trail::reserve(rt.alloc(), shape, &[]) else {
        panic!(rt; "there was no memory")
    };
    let (trail, shares) = sent((trail, shares));
    assert!(rt; !trail.is_open() && shares.is_empty());
}

// What a share has made, in 64 bits and in 32, what its trail agrees to, and how many turns in a row left at the top.
#[derive(Clone, Copy, PartialEq, Eq)]
struct Counts {
    made: u64,
    shown: u32,
    agreed: u32,
    run: u32,
}

fn counts_of(trail: &mut Trail, share: &mut Share) -> Counts
    requires own { share.old.name ≡ trail.old.name }
    ensures trail { trail.new ≡ trail.old }
    ensures share { share.new ≡ share.old }
{
    let top = trail.shape().keeps.as_slice().len() as u32;
    Counts {
        made: share.turns_made(),
        shown: share.made(),
        agreed: trail.agree(share),
        run: trail.run(top),
    }
}

// The counts of caller 0 behind this many turns of its own, then behind one more that leaves at the top, and then behind one that keeps the
// lock for a turn of caller 1. There are none where a turn can't be made, or where another count differs.
fn counts_behind(alloc: Global, turns: u64) -> Result<Option<[Counts; 3]>, OutOfMemory> {
    let shape = shape_of(alloc, &KEPT_ONCE)?;
    let callers = shape.paths.as_slice().len();
    if !shape.is_well_formed() || callers != 2 || turns > 1 << 33 {
        return Ok(None);
    }
    let (mut trail, mut shares) = Trail::unrecorded_behind(alloc, shape, turns)?;
    let (Some(mut second), Some(mut first)) = (shares.pop(), shares.pop()) else {
        return Ok(None);
    };
    let begun = trail.last() == Some(LONE) && second.turns_made() == 0;
    let start = counts_of(&mut trail, &mut first);
    let alone = hold_as(&mut trail, &mut first, LONE);
    let after = counts_of(&mut trail, &mut first);
    let handed = hands_over(&mut trail, &mut first, &mut second);
    let end = counts_of(&mut trail, &mut first);
    let made = begun && alone && handed && second.turns_made() == 1;
    Ok(made.then_some([start, after, end]))
}

// A turn of the first caller keeps the lock at level 0, and one of the second takes it there.
fn hands_over(trail: &mut Trail, first: &mut Share, second: &mut Share) -> bool
    requires first { first.old.name ≡ trail.old.name }
    requires second { second.old.name ≡ trail.old.name }
    ensures trail { trail.new.name ≡ trail.old.name }
    ensures first { first.new.name ≡ first.old.name }
    ensures second { second.new.name ≡ second.old.name }
{
    let kept = Turn {
        tests: 1,
        left: 0,
        ..LONE
    };
    let taken = Turn {
        caller: 1,
        climb: 0,
        ..LONE
    };
    let keeps = hold_as(trail, first, kept) && trail.run(0) == 1;
    let takes = hold_as(trail, second, taken) && trail.run(0) == 0;
    keeps && takes
}

// A turn of caller 0 behind which nobody is queued, where there are two levels.
const LONE: Turn = Turn {
    caller: 0,
    climb: 1,
    tests: 0,
    left: 1,
};

#[test]
fn counts_go_on_beyond_32_bits(rt: HostRuntime) {
    let most = u32::MAX;
    // The turns before, and at each moment the turns of caller 0 in 64 bits, and what 32 bits show of them.
    let cases = [
        (
            4_294_967_294,
            [
                (4_294_967_294, most - 1),
                (4_294_967_295, most),
                (4_294_967_296, most),
            ],
        ),
        (
            4_294_967_301,
            [
                (4_294_967_301, most),
                (4_294_967_302, most),
                (4_294_967_303, most),
            ],
        ),
    ];
    for (turns, expected) in cases {
        let Ok(Some(counts)) = counts_behind(rt.alloc(), turns) else {
            panic!(rt; "the turns could not be made")
        };
        let wanted = expected.map(|(made, shown)| Counts {
            made,
            shown,
            agreed: shown,
            run: shown,
        });
        assert!(rt; counts == wanted);
    }
}
