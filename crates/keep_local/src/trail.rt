//! The record of all holds of a lock.
ghost use Rattle.std.specs.Prelude.{◌≡◌, ℕ, ◌+◌, ◌-◌, ◌^◌, ◌<◌, ◌≤◌, ◌↔◌, ◌⊎◌, [], ◌∷◌, ◌++◌, length, sum, slice_index};
ghost use Rattle.std.specs.Prelude.{slice_set, IfOk, IfSome, IsSome, IsTrue, None, Some, cond, false, max, min, option_map, replicate};
ghost use Rattle.std.specs.Prelude.{true, vec_capacity, ◌≢◌};
ghost use Rattle.keep_local.specs.ReceiptRule.{AreFirst};
ghost use Rattle.keep_local.specs.Shapes.{IsWellFormed, top_of, callers_of};
ghost use Rattle.keep_local.specs.Turns.{run, last_turn, Begins};
ghost use Rattle.keep_local.specs.States.{IsTrail, IsShareOf, MayLeave, all_tests, all_turns, free_quota, free_quotas, left_at};
ghost use Rattle.keep_local.specs.States.{lone_turn, new_shares, new_trail, opened, option_list, shares_behind, tested};
ghost use Rattle.keep_local.specs.States.{tests_of, trail_behind, unrecorded_trail};
ghost use Rattle.keep_local.specs.States.{with_test as set_where_queued};

use crate::receipt::ClosedReceipt;
use crate::receipts::Receipts;
use crate::shape::Shape;
use crate::share::{Share, clamped};
use crate::tie::Tie;
use crate::turn::Turn;
use out_of_memory::OutOfMemory;
use std::alloc::Global;
use std::marker::Model;

// A shape has at most 33 levels: the tests of a turn have 32 bits, and the top has none.
const LEVELS: usize = 33;

// What a trail keeps.
#[derive(Drop)]
pub(crate) struct Log {
    // What changes with each turn stands first, together: the open turn, and the last closed one.
    current: Option<Turn>,
    last: Option<Turn>,
    noted: u32,
    recorded: bool,
    // All turns where the trail is recorded, an open one last, and none where it isn't.
    turns: Vec<Turn>,
    // The run of each level, over the closed turns. It stays at the greatest number of 32 bits where it comes to that.
    runs: [u32; LEVELS],
    tie: Tie,
    receipts: Receipts,
    shape: Shape,
}

/// The turns of a lock's callers, in order. It is one pointer, since it moves with every hold.
#[derive(Drop)]
pub struct Trail {
    log: Box<Log>,
}

impl Model for Trail {
    ghost use Rattle.keep_local.specs.States.{TrailState};

    ghost Value = { TrailState };

    ghost use Rattle.keep_local.specs.Trails.{log_state, IsKept};

    ghost view = { λ trail. log_state trail.log.value };

    ghost invariant = { λ trail. IsKept trail.log.value };
}

impl Trail {
    /// A recorded trail without turns, for callers with these paths, and a share for each caller with its quota, in order. It takes the
    /// room for every turn.
    pub fn reserve(
        alloc: Global,
        shape: Shape,
        quotas: &[u32],
    ) -> Result<(Trail, Vec<Share>), OutOfMemory>
        requires shape { IsWellFormed shape }
        requires few { callers_of shape < 2 ^ 32 }
        requires quotas { length quotas.now ≡ callers_of shape }
        requires fits { sum quotas.now < 2 ^ 32 }
        ensures trail { IfOk result (λ m. m.0 ≡ new_trail m.0.name m.0.receipts shape quotas.now) }
        ensures shares { IfOk result (λ m. m.1.items ≡ new_shares m.0.name quotas.now) }
        ensures lawful { IfOk result (λ m. IsTrail m.0) }
    {
        let room: u32 = quotas.iter().sum();
        let turns = Vec::with_capacity(alloc, room as usize)?;
        let quotas = widened(alloc, quotas)?;
        Trail::make(alloc, shape, &quotas, true, turns)
    }

    /// A trail without turns that keeps none in memory, for callers with these paths, and a share for each caller, in order. Their quotas
    /// are equal, and the greatest of which 64 bits have one for each caller: 2^64 - 1, divided by the number of callers.
    pub fn unrecorded(alloc: Global, shape: Shape) -> Result<(Trail, Vec<Share>), OutOfMemory>
        requires shape { IsWellFormed shape }
        requires few { callers_of shape < 2 ^ 32 }
        ensures trail { IfOk result (λ m. m.0 ≡ unrecorded_trail m.0.name m.0.receipts shape) }
        ensures shares { IfOk result (λ m. m.1.items ≡ new_shares m.0.name (free_quotas (callers_of shape))) }
        ensures lawful { IfOk result (λ m. IsTrail m.0) }
    {
        let callers = shape.callers();
        let quotas = vec![in alloc; equal_part(callers); callers]?;
        Trail::make(alloc, shape, &quotas, false, Vec::new(alloc))
    }

    /// An unrecorded trail whose caller 0 has already made this many turns, each of which climbed to the top and left there with nobody
    /// queued, and the shares. It is for tests whose counts begin where it would take too long to come by holds.
    pub fn unrecorded_behind(
        alloc: Global,
        shape: Shape,
        turns: u64,
    ) -> Result<(Trail, Vec<Share>), OutOfMemory>
        requires shape { IsWellFormed shape }
        requires few { callers_of shape < 2 ^ 32 }
        requires caller { 0 < callers_of shape }
        requires quota { turns ≤ free_quota (callers_of shape) }
        ensures trail { IfOk result (λ m. m.0 ≡ trail_behind m.0.name m.0.receipts shape turns) }
        ensures shares { IfOk result (λ m. m.1.items ≡ shares_behind m.0.name (callers_of shape) turns) }
        ensures lawful { IfOk result (λ m. IsTrail m.0) }
    {
        let (mut trail, mut shares) = Trail::unrecorded(alloc, shape)?;
        trail.begin_behind(&mut shares[0], turns);
        Ok((trail, shares))
    }

    // Gives an unrecorded trail without turns so many that the share's caller made alone.
    fn begin_behind(&mut self, share: &mut Share, turns: u64)
        requires unrecorded { self.old.recorded ≡ false }
        requires none { self.old.closed ≡ [] }
        requires closed { self.old.current ≡ None }
        requires own { share.old.name ≡ self.old.name }
        requires quota { share.old.made + turns ≤ share.old.quota }
        ensures behind { self.new ≡ record self.old { closed = replicate turns (lone_turn self.old.shape share.old.caller) } }
        ensures share { share.new ≡ record share.old { made = share.old.made + turns } }
        ensures lawful { IsTrail self.new }
    {
        let log = &mut *self.log;
        log.tie.append(share, turns);
        let top = log.shape.top();
        let caller = share.caller();
        let turn = Turn {
            caller,
            climb: top,
            tests: 0,
            left: top,
        };
        log.receipts.record(turn, turns);
        log.last = last_of(turn, turns);
        log.runs[top as usize] = clamped(turns);
    }

    // A trail without turns. A recorded one takes a list that has room for every turn.
    fn make(
        alloc: Global,
        shape: Shape,
        quotas: &[u64],
        recorded: bool,
        turns: Vec<Turn>,
    ) -> Result<(Trail, Vec<Share>), OutOfMemory>
        requires shape { IsWellFormed shape }
        requires few { callers_of shape < 2 ^ 32 }
        requires quotas { length quotas.now ≡ callers_of shape }
        requires fits { sum quotas.now < 2 ^ 64 }
        requires recordable { recorded ≡ true → sum quotas.now < 2 ^ 32 }
        requires room { recorded ≡ true → sum quotas.now ≤ vec_capacity turns }
        requires empty { turns.items ≡ [] }
        ensures trail { IfOk result (λ m. m.0 ≡ record (new_trail m.0.name m.0.receipts shape quotas.now) { recorded = recorded }) }
        ensures shares { IfOk result (λ m. m.1.items ≡ new_shares m.0.name quotas.now) }
        ensures lawful { IfOk result (λ m. IsTrail m.0) }
    {
        check_keeps(shape.keeps.as_slice());
        let (tie, shares) = Tie::make(alloc, quotas)?;
        let receipts = Receipts::make(alloc)?;
        let log = Log {
            current: None,
            last: None,
            noted: 0,
            recorded,
            turns,
            runs: [0; LEVELS],
            tie,
            receipts,
            shape,
        };
        let log = Box::new(alloc, log)?;
        Ok((Trail { log }, shares))
    }

    /// Opens a turn of the share's caller, which climbed up to this level.
    pub fn open(&mut self, share: &mut Share, climb: u32)
        requires closed { self.old.current ≡ None }
        requires own { share.old.name ≡ self.old.name }
        requires quota { share.old.made < share.old.quota }
        requires begins { Begins self.old.shape self.old.closed (opened self.old share.old.caller climb) }
        ensures opened { self.new ≡ record self.old { current = Some (opened self.old share.old.caller climb) } }
        ensures made { share.new ≡ record share.old { made = share.old.made + 1 } }
        ensures counted { IsShareOf self.new share.new }
        ensures lawful { IsTrail self.new }
    {
        let log = &mut *self.log;
        log.tie.append(share, 1);
        let turn = Turn {
            caller: share.caller(),
            climb,
            tests: 0,
            left: log.shape.top(),
        };
        log.current = Some(turn);
        push_where(&mut log.turns, log.recorded, turn);
    }

    /// Notes for the open turn whether its release found another caller queued at a level. Levels are noted from 0 up.
    pub fn note(&mut self, level: u32, yes: bool)
        requires open { IsSome self.old.current }
        requires next { level ≡ self.old.noted }
        requires below { level < top_of self.old.shape }
        ensures noted { self.new ≡ record self.old { current = option_map (λ t. tested t level yes) self.old.current; noted = level + 1 } }
        ensures lawful { IsTrail self.new }
    {
        let log = &mut *self.log;
        let Some(turn) = log.current else {
            unreachable!()
        };
        let turn = Turn {
            tests: with_test(turn.tests, level, yes),
            ..turn
        };
        log.current = Some(turn);
        write_last(&mut log.turns, turn);
        log.noted = level + 1;
    }

    /// Closes the open turn, which leaves the lock at this level.
    pub fn leave(&mut self, level: u32)
        requires open { IsSome self.old.current }
        requires may { IfSome self.old.current (MayLeave self.old level) }
        ensures left { self.new ≡ record self.old {
          closed =
              self.old.closed ++ option_list (option_map (λ t. left_at t level) self.old.current);
          current = None;
          noted = 0;
        } }
        ensures lawful { IsTrail self.new }
    {
        let log = &mut *self.log;
        let Some(turn) = log.current else {
            unreachable!()
        };
        let turn = Turn {
            left: level,
            ..turn
        };
        log.receipts.record(turn, 1);
        write_last(&mut log.turns, turn);
        log.current = None;
        log.last = Some(turn);
        log.noted = 0;
        count_run(&mut log.runs, level);
    }

    /// A receipt of the closed turns, which whoever has it may keep while the trail is in other hands.
    pub fn receipt(&mut self) -> ClosedReceipt
        ensures own { result.name ≡ self.old.receipts }
        ensures tests { result.tests ≡ all_tests self.old.closed }
        ensures same { self.new ≡ self.old }
        ensures lawful { IsTrail self.new }
    {
        self.log.receipts.give()
    }

    /// Shows that the tests that a receipt of this trail knows are those of its first turns. It is asked of a receipt of one turn or more:
    /// one of none has nothing to show.
    pub fn agree_on(&mut self, receipt: &mut ClosedReceipt)
        requires own { receipt.old.name ≡ self.old.receipts }
        requires some { receipt.old.tests ≢ [] }
        ensures first { AreFirst receipt.old.tests (all_tests self.old.closed) }
        ensures receipt { receipt.new ≡ receipt.old }
        ensures same { self.new ≡ self.old }
        ensures lawful { IsTrail self.new }
    {
        self.log.receipts.check(receipt);
    }

    /// Whether a turn is open.
    pub fn is_open(&self) -> bool
        ensures open { IsTrue result ↔ IsSome self.now.current }
        ensures lawful { IsTrail self.now }
    {
        self.log.current.is_some()
    }

    /// The tests that were noted for the open turn, 0 where none is open.
    pub fn tests(&self) -> u32
        ensures tests { result ≡ tests_of self.now.current }
        ensures lawful { IsTrail self.now }
    {
        match self.log.current {
            Some(turn) => turn.tests,
            None => 0,
        }
    }

    /// The last closed turn, or `None` before the first.
    pub fn last(&self) -> Option<Turn>
        ensures last { result ≡ last_turn self.now.closed }
        ensures lawful { IsTrail self.now }
    {
        self.log.last
    }

    /// Whether the trail keeps its turns in memory.
    pub fn is_recorded(&self) -> bool
        ensures recorded { result ≡ self.now.recorded }
        ensures lawful { IsTrail self.now }
    {
        self.log.recorded
    }

    /// All turns of a recorded trail, an open one last.
    pub fn turns(&self) -> &[Turn]
        requires recorded { self.now.recorded ≡ true }
        ensures turns { result.now ≡ all_turns self.now }
        ensures lawful { IsTrail self.now }
    {
        &self.log.turns
    }

    /// How many closed turns left at a level, behind the last one that left higher. Where these are more than 32 bits have, which is so at
    /// the top of an unrecorded trail alone, it is the greatest number of 32 bits.
    pub fn run(&self, level: u32) -> u32
        ensures run { (self.now.recorded ≡ true) ⊎ (level < top_of self.now.shape) → result ≡ run level self.now.closed }
        ensures most { result ≡ min (run level self.now.closed) (2 ^ 32 - 1) }
        ensures lawful { IsTrail self.now }
    {
        if (level as usize) < LEVELS {
            self.log.runs[level as usize]
        } else {
            0
        }
    }

    /// The shape that the trail was made with.
    pub fn shape(&self) -> &Shape
        ensures shape { result.now ≡ self.now.shape }
        ensures lawful { IsTrail self.now }
    {
        &self.log.shape
    }

    /// How many turns the share's caller has in the trail, an open one included, as `Share::made` answers it: where these are more than 32
    /// bits have, which is so of no recorded trail, it is the greatest number of 32 bits.
    pub fn agree(&mut self, share: &mut Share) -> u32
        requires own { share.old.name ≡ self.old.name }
        ensures made { self.old.recorded ≡ true → result ≡ share.old.made }
        ensures most { result ≡ min share.old.made (2 ^ 32 - 1) }
        ensures trail { self.new ≡ self.old }
        ensures share { share.new ≡ share.old }
        ensures counted { IsShareOf self.old share.old }
        ensures lawful { IsTrail self.new }
    {
        let log = &mut *self.log;
        log.tie.look(share);
        share.made()
    }
}

// The tests with a level's bit set, where another caller was queued there.
fn with_test(tests: u32, level: u32, queued: bool) -> u32
    requires { level < 32 }
    ensures { result ≡ set_where_queued tests level queued }
{
    if queued { tests | 1 << level } else { tests }
}

// Shows that each keep has 32 bits.
fn check_keeps(_keeps: &[u32])
    ensures { (level : ℕ) → slice_index _keeps.now level < 2 ^ 32 }
{}

// The quotas in 64 bits.
fn widened(alloc: Global, quotas: &[u32]) -> Result<Vec<u64>, OutOfMemory>
    ensures { IfOk result (λ wide. wide.items ≡ quotas.now) }
{
    let mut wide = Vec::with_capacity(alloc, quotas.len())?;
    for quota in quotas {
        wide.push(u64::from(*quota))?;
    }
    Ok(wide)
}

// The part of each of so many callers in the greatest number of 64 bits.
fn equal_part(callers: usize) -> u64
    ensures { result ≡ free_quota callers }
{
    if callers == 0 {
        u64::MAX
    } else {
        u64::MAX / callers as u64
    }
}

// The last of so many turns like this one.
fn last_of(turn: Turn, turns: u64) -> Option<Turn>
    ensures { result ≡ last_turn (replicate turns turn) }
{
    if turns == 0 { None } else { Some(turn) }
}

// Adds a turn where the trail is recorded.
fn push_where(turns: &mut Vec<Turn>, recorded: bool, turn: Turn)
    requires { recorded ≡ true → length turns.old.items < vec_capacity turns.old }
    ensures items { turns.new.items ≡ cond recorded (turns.old.items ++ turn ∷ []) turns.old.items }
    ensures capacity { vec_capacity turns.new ≡ vec_capacity turns.old }
{
    if recorded {
        turns.push_reserved(turn);
    }
}

// Writes a turn in the place of the last one, where there is one.
fn write_last(turns: &mut Vec<Turn>, turn: Turn)
    ensures items { turns.new.items ≡ slice_set turns.old.items (length turns.old.items - 1) turn }
    ensures capacity { vec_capacity turns.new ≡ vec_capacity turns.old }
{
    let many = turns.len();
    if many > 0 {
        turns[many - 1] = turn;
    }
}

// Counts one more turn that left at a level, as far as 32 bits go: the runs of the lower levels end.
fn count_run(runs: &mut [u32], level: u32)
    requires there { level < length runs.old }
    ensures own { slice_index runs.new level ≡ min (slice_index runs.old level + 1) (2 ^ 32 - 1) }
    ensures lower { (k : ℕ) → k < level → slice_index runs.new k ≡ 0 }
    ensures higher { (k : ℕ) → level < k → slice_index runs.new k ≡ slice_index runs.old k }
{
    let (lower, others) = runs.split_at_mut(level as usize);
    lower.fill(0);
    others[0] = others[0].saturating_add(1);
}
