//! What of the locks may go to another thread, or be shared with one, as laws for the checker.
ghost use Rattle.lock_rules.specs.contracts.tokens.Pass.{the_row as pass};
ghost use Rattle.clof_compose.specs.contracts.level_tokens.LevelPass.{the_row as low_pass};
ghost use Rattle.lock_depths.specs.Crossing.{Crosses};
ghost use Rattle.lock_depths.specs.contracts.two.LockOfTwo.{the_row as lock_of_two};
ghost use Rattle.lock_depths.specs.contracts.two.QueueOfTwo.{the_row as queue_of_two};
ghost use Rattle.lock_depths.specs.contracts.two.HeldOfTwo.{the_row as held_of_two};
ghost use Rattle.lock_depths.specs.contracts.two.LeaveOfTwo.{the_row as leave_of_two};
ghost use Rattle.lock_depths.specs.contracts.three.LockOfThree.{the_row as lock_of_three};
ghost use Rattle.lock_depths.specs.contracts.three.QueueOfThree.{the_row as queue_of_three};
ghost use Rattle.lock_depths.specs.contracts.three.HeldOfThree.{the_row as held_of_three};
ghost use Rattle.lock_depths.specs.contracts.three.LeaveOfThree.{the_row as leave_of_three};
ghost use Rattle.lock_depths.specs.contracts.four.LockOfFour.{the_row as lock_of_four};
ghost use Rattle.lock_depths.specs.contracts.four.QueueOfFour.{the_row as queue_of_four};
ghost use Rattle.lock_depths.specs.contracts.four.HeldOfFour.{the_row as held_of_four};
ghost use Rattle.lock_depths.specs.contracts.four.LeaveOfFour.{the_row as leave_of_four};

/// A lock of two levels and its tokens may go to another thread, and the lock and its idle passes may be shared with one.
pub fn locks_of_two_cross()
    ensures { Crosses lock_of_two (low_pass pass) queue_of_two held_of_two leave_of_two }
{}

/// A lock of three levels and its tokens may go to another thread, and the lock and its idle passes may be shared with one.
pub fn locks_of_three_cross()
    ensures { Crosses lock_of_three (low_pass pass) queue_of_three held_of_three leave_of_three }
{}

/// A lock of four levels and its tokens may go to another thread, and the lock and its idle passes may be shared with one.
pub fn locks_of_four_cross()
    ensures { Crosses lock_of_four (low_pass pass) queue_of_four held_of_four leave_of_four }
{}
