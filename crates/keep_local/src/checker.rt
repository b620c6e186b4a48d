//! A plain and slow program that computes the definitions, to compare a record with.
ghost use Rattle.std.specs.Prelude.{◌≡◌, ℕ, ◌<◌, ◌≤◌, ◌↔◌, IsTrue};
ghost use Rattle.std.specs.Int.{bit_at};
ghost use Rattle.keep_local.specs.Shapes.{top_of};
ghost use Rattle.keep_local.specs.Turns.{run, Begins, Ends, Follows, IsDue, IsLeft, IsLawful};

use crate::shape::Shape;
use crate::turn::Turn;

/// Whether a list of closed turns is lawful. It goes back over the turns before each one.
pub fn is_lawful(shape: &Shape, turns: &[Turn]) -> bool
    requires { top_of shape.now ≤ 32 }
    ensures { IsTrue result ↔ IsLawful shape.now turns.now }
{
    for i in 0..turns.len() {
        if !follows(shape, &turns[..i], turns[i]) {
            return false;
        }
    }
    true
}

// Whether a closed turn follows the turns before it.
fn follows(shape: &Shape, before: &[Turn], turn: Turn) -> bool
    requires { top_of shape.now ≤ 32 }
    ensures { IsTrue result ↔ Follows shape.now before.now turn }
{
    begins(shape, before, turn) && ends(shape, before, turn)
}

/// Whether a turn may begin behind some turns: it climbs up to where the last one left, or to the top, and its caller is under
/// the node of the last one there.
pub fn begins(shape: &Shape, before: &[Turn], turn: Turn) -> bool
    requires { top_of shape.now ≤ 32 }
    ensures { IsTrue result ↔ Begins shape.now before.now turn }
{
    match before.last() {
        None => turn.climb == shape.top(),
        Some(last) => {
            turn.climb == last.left
                && shape.node(turn.caller as usize, turn.climb as usize)
                    == shape.node(last.caller as usize, turn.climb as usize)
        }
    }
}

// Whether a turn leaves where it has to, and has no other tests than those below.
fn ends(shape: &Shape, before: &[Turn], turn: Turn) -> bool
    requires { top_of shape.now ≤ 32 }
    ensures { IsTrue result ↔ Ends shape.now before.now turn }
{
    turn.left == level_to_leave(shape, before, turn.tests)
        && has_tests_below(turn.tests, turn.left, shape.top())
}

/// The level at which a turn with these tests leaves: the least one that is due, or the top.
pub fn level_to_leave(shape: &Shape, before: &[Turn], tests: u32) -> u32
    requires { top_of shape.now ≤ 32 }
    ensures { IsLeft shape.now before.now tests result }
{
    let top = shape.top();
    for level in 0..top {
        if is_due(shape, before, tests, level) {
            return level;
        }
    }
    top
}

// Whether another caller was queued at a level, and its run is below its keep.
fn is_due(shape: &Shape, before: &[Turn], tests: u32, level: u32) -> bool
    requires levels { top_of shape.now ≤ 32 }
    requires below { level < top_of shape.now }
    ensures { IsTrue result ↔ IsDue shape.now before.now tests level }
{
    has_bit(tests, level) && run_of(before, level) < shape.keeps.as_slice()[level as usize] as usize
}

// Whether each test is at a level up to `left` that is below the top.
fn has_tests_below(tests: u32, left: u32, top: u32) -> bool
    ensures { IsTrue result ↔ ((level : ℕ) → bit_at tests level ≡ 1 → (level ≤ left) × (level < top)) }
{
    for level in 0..32 {
        if has_bit(tests, level) && (level > left || level >= top) {
            return false;
        }
    }
    true
}

// Whether a bit is set.
fn has_bit(tests: u32, level: u32) -> bool
    requires { level < 32 }
    ensures { IsTrue result ↔ (bit_at tests level ≡ 1) }
{
    (tests >> level) & 1 == 1
}

/// The run of a level: how many turns left at it, behind the last one that left higher.
pub fn run_of(turns: &[Turn], level: u32) -> usize
    ensures { result ≡ run level turns.now }
{
    let mut count = 0;
    for turn in turns {
        if turn.left > level {
            count = 0;
        } else if turn.left == level {
            count += 1;
        }
    }
    count
}
