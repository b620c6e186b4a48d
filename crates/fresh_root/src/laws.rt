//! Laws of a counted history. Each is a function that does nothing, whose contract is the law.
ghost use Rattle.std.specs.Thread.{IsSend, IsSync};
ghost use Rattle.fresh_root.specs.contracts.fresh.Fresh.{the_row};
ghost use Rattle.fresh_root.specs.contracts.history.History.{the_row as the_history};
ghost use Rattle.fresh_root.specs.Laws.{MarksStand, NoReleaseWhileOut, TagsTell, WhatWasSeenIsOrdered};

use crate::history::History;
use crate::sent::is_sent;
use lock_rules::Payload;

/// A mark names a place of its caller in every history that begins with what the token saw: so long as the history only grows, the token
/// alone tells, and no lists are compared.
pub fn marks_stand()
    ensures { MarksStand }
{}

/// While the payload is out, the calls of a `Fresh` are no list of callers. A release of a lock asks that they are, so none is possible.
pub fn no_release_while_out<P>()
    ensures { NoReleaseWhileOut P }
{}

/// Two `Fresh` of one tag are one, with as many tokens, and so are the tags of their payloads.
pub fn tags_tell<P>()
    ensures { TagsTell P }
{}

/// Of what any two seats saw, one is a beginning of the other, in every state that the rule allows.
pub fn what_was_seen_is_ordered()
    ensures { WhatWasSeenIsOrdered }
{}

/// A `Fresh` may go to another thread where its payload may. The checker finds what follows for a lock whose root has one where this is
/// called.
pub fn freshes_may_be_sent<P: Payload + Send>()
    ensures sent { IsSend (the_row P.row ⟦<P as Payload>⟧) }
{
    is_sent::<History>();
    is_sent::<Option<P>>();
}

/// A counted history may go to another thread.
pub fn histories_may_be_sent()
    ensures { IsSend the_history }
{
    is_sent::<History>();
}

/// A counted history may be shared between threads.
pub fn histories_may_be_shared()
    ensures { IsSync the_history }
{}
