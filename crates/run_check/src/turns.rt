//! The turns of the lines so far, and which one may come next.

ghost use Rattle.std.specs.Prelude.{◌≡◌, ℕ, ◌+◌, ◌<◌, ◌≤◌, ◌^◌, ◌↔◌, [], ◌∷◌, ◌++◌, length, slice_index, IfSome, IsTrue, MatchOption, OnOk};
ghost use Rattle.std.specs.Int.{bit_at};
ghost use Rattle.keep_local.specs.Shapes.{top_of};
ghost use Rattle.keep_local.specs.Turns.{climb_after, last_turn, IsDue, IsLeft};
ghost use Rattle.run_check.specs.Readings.{hold_view};
ghost use Rattle.run_check.specs.Turns.{HasNoTurn, IsNextTurn};

use crate::reading::Hold;
use keep_local::{Shape, Turn, begins};
use out_of_memory::OutOfMemory;
use std::alloc::Global;
use std::marker::Model;

// A shape has at most 33 levels: the tests of a turn have 32 bits, and the top has none.
const LEVELS: usize = 33;

/// Lawful turns, in order.
#[derive(Drop)]
pub(crate) struct Turns {
    list: Vec<Turn>,
    // The run of each level: how many turns left at it, behind the last one that left higher.
    runs: [u32; LEVELS],
}

impl Model for Turns {
    ghost use Rattle.std.specs.Prelude.{List};
    ghost use Rattle.keep_local.specs.declared.turn.Turn.{Turn};

    ghost Value = { List Turn };

    ghost use Rattle.run_check.specs.Turns.{AreCounted};

    ghost view = { λ turns. turns.list.items };

    ghost invariant = { AreCounted };
}

impl Turns {
    /// No turns.
    pub(crate) fn new(alloc: Global) -> Turns
        ensures { result ≡ [] }
    {
        Turns {
            list: Vec::new(alloc),
            runs: [0; LEVELS],
        }
    }

    /// The turns.
    pub(crate) fn list(&self) -> &[Turn]
        ensures { result.now ≡ self.now }
    {
        &self.list
    }

    /// The turn of a hold, where that follows these turns.
    pub(crate) fn next(&self, shape: &Shape, hold: Hold) -> Option<Turn>
        requires { top_of shape.now ≤ 32 }
        ensures { MatchOption result
            (HasNoTurn shape.now self.now (hold_view hold))
            (IsNextTurn shape.now self.now (hold_view hold)) }
    {
        let climb = self.climb(shape);
        let left = self.left(shape, hold.tests);
        let turn = Turn {
            caller: hold.caller,
            climb,
            tests: hold.tests,
            left,
        };
        if begins(shape, &self.list, turn) && has_tests_below(hold.tests, left, top(shape)) {
            Some(turn)
        } else {
            None
        }
    }

    // How high the next turn has to climb.
    fn climb(&self, shape: &Shape) -> u32
        requires { top_of shape.now ≤ 32 }
        ensures { result ≡ climb_after shape.now self.now }
    {
        match self.list.last() {
            Some(last) => last.left,
            None => top(shape),
        }
    }

    // Where a next turn with these tests leaves: the least level at which another caller was queued and whose run is below its keep, or
    // the top.
    fn left(&self, shape: &Shape, tests: u32) -> u32
        requires { top_of shape.now ≤ 32 }
        ensures { IsLeft shape.now self.now tests result }
    {
        let top = top(shape);
        for level in 0..top {
            if self.is_due(shape, tests, level) {
                return level;
            }
        }
        top
    }

    // Whether another caller was queued at a level whose run is below its keep.
    fn is_due(&self, shape: &Shape, tests: u32, level: u32) -> bool
        requires levels { top_of shape.now ≤ 32 }
        requires below { level < top_of shape.now }
        ensures { IsTrue result ↔ IsDue shape.now self.now tests level }
    {
        has_bit(tests, level) && self.runs[level as usize] < shape.keeps.as_slice()[level as usize]
    }

    /// One more turn, which follows these. Where memory is refused, the turns are of no further use.
    pub(crate) fn push(&mut self, turn: Turn) -> Result<(), OutOfMemory>
        requires level { turn.left ≤ 32 }
        requires few { length self.old + 1 < 2 ^ 32 }
        ensures { OnOk result (self.new ≡ self.old ++ turn ∷ []) }
    {
        self.list.push(turn)?;
        count_run(&mut self.runs, turn.left);
        Ok(())
    }

    /// Whether the last turn left at the top.
    pub(crate) fn has_ended(&self, shape: &Shape) -> bool
        requires { top_of shape.now ≤ 32 }
        ensures { IsTrue result ↔ IfSome (last_turn self.now) (λ t. t.left ≡ top_of shape.now) }
    {
        match self.list.last() {
            Some(last) => last.left == top(shape),
            None => true,
        }
    }
}

// The top level of a shape.
fn top(shape: &Shape) -> u32
    requires { top_of shape.now ≤ 32 }
    ensures { result ≡ top_of shape.now }
{
    shape.keeps.as_slice().len() as u32
}

// Counts one more turn that left at a level: the runs of the lower levels end.
fn count_run(runs: &mut [u32], level: u32)
    requires there { level < length runs.old }
    requires small { slice_index runs.old level + 1 < 2 ^ 32 }
    ensures own { slice_index runs.new level ≡ slice_index runs.old level + 1 }
    ensures lower { (k : ℕ) → k < level → slice_index runs.new k ≡ 0 }
    ensures higher { (k : ℕ) → level < k → slice_index runs.new k ≡ slice_index runs.old k }
{
    let (lower, others) = runs.split_at_mut(level as usize);
    lower.fill(0);
    others[0] += 1;
}

// Whether each test is at a level up to `left` that is below the top.
fn has_tests_below(tests: u32, left: u32, top: u32) -> bool
    ensures { IsTrue result ↔ ((level : ℕ) → bit_at tests level ≡ 1 → (level ≤ left) × (level < top)) }
{
    for level in 0..32 {
        if has_bit(tests, level) && (level > left || level >= top) {
            return false;
        }
    }
    true
}

// Whether a bit is set.
fn has_bit(tests: u32, level: u32) -> bool
    requires { level < 32 }
    ensures { IsTrue result ↔ (bit_at tests level ≡ 1) }
{
    (tests >> level) & 1 == 1
}
