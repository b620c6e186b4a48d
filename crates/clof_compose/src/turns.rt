//! The turns of a root, as a lock's calls open and close them.
ghost use Rattle.std.specs.Prelude.{◌≡◌, ◌+◌, ◌<◌, [], ◌∷◌, ◌++◌, None, Some, IsSome, IfSome, option_map};
ghost use Rattle.keep_local.specs.Shapes.{top_of};
ghost use Rattle.keep_local.specs.Turns.{Begins};
ghost use Rattle.keep_local.specs.States.{IsTrail, IsShareOf, MayLeave, all_tests, left_at, opened, option_list, tested, tests_of};

use crate::report::Report;
use crate::root::Root;
use keep_local::Share;

/// Opens a turn of the share's caller, which climbed up to this level.
pub(crate) fn open_turn<P>(root: &mut Root<P>, share: &mut Share, climb: u32)
    requires closed { root.old.trail.current ≡ None }
    requires own { share.old.name ≡ root.old.trail.name }
    requires quota { share.old.made < share.old.quota }
    requires begins { Begins root.old.trail.shape root.old.trail.closed (opened root.old.trail share.old.caller climb) }
    ensures payload { root.new.payload ≡ root.old.payload }
    ensures opened { root.new.trail ≡ record root.old.trail { current = Some (opened root.old.trail share.old.caller climb) } }
    ensures made { share.new ≡ record share.old { made = share.old.made + 1 } }
    ensures counted { IsShareOf root.new.trail share.new }
    ensures lawful { IsTrail root.new.trail }
{
    root.trail.open(share, climb);
}

/// Closes the open turn, which leaves at this level. The answer tells its tests, and has a receipt of those up to it.
pub(crate) fn close_turn<P>(root: &mut Root<P>, level: u32) -> Report
    requires open { IsSome root.old.trail.current }
    requires may { IfSome root.old.trail.current (MayLeave root.old.trail level) }
    ensures payload { root.new.payload ≡ root.old.payload }
    ensures closed { root.new.trail ≡ record root.old.trail {
      closed = root.old.trail.closed ++ option_list (option_map
          (λ t. left_at t level) root.old.trail.current);
      current = None;
      noted = 0;
    } }
    ensures lawful { IsTrail root.new.trail }
    ensures tests { result.tests ≡ tests_of root.old.trail.current }
    ensures own { result.receipt.name ≡ root.old.trail.receipts }
    ensures told { result.receipt.tests ≡ all_tests root.old.trail.closed ++ result.tests ∷ [] }
{
    let tests = root.trail.tests();
    root.trail.leave(level);
    let receipt = root.trail.receipt();
    Report { tests, receipt }
}

/// Notes for the open turn whether somebody is queued behind at a level.
pub(crate) fn note_waiter<P>(root: &mut Root<P>, level: u32, yes: bool)
    requires open { IsSome root.old.trail.current }
    requires next { level ≡ root.old.trail.noted }
    requires below { level < top_of root.old.trail.shape }
    ensures payload { root.new.payload ≡ root.old.payload }
    ensures noted { root.new.trail ≡ record root.old.trail {
      current = option_map
          (λ t. tested t level yes) root.old.trail.current;
      noted = level + 1;
    } }
    ensures lawful { IsTrail root.new.trail }
    ensures lawful_before { IsTrail root.old.trail }
{
    // Whoever looks at a trail is told that it is lawful.
    root.trail.is_open();
    root.trail.note(level, yes);
}
