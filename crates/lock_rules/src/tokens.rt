//! The tokens of a pass at rest and of one in the queue, one each for all four locks. Neither has a slot in hand, or names the type of the
//! value.
ghost use Rattle.std.specs.Prelude.{◌≡◌, []};
ghost use Rattle.lock_rules.specs.Rows.{IsRowOf};
ghost use Rattle.lock_rules.specs.Tokens.{IsSeated, view_of, badge_place, badge_waiting};
ghost use Rattle.lock_rules.specs.Views.{IsPlain, IsTold, mark_of};
ghost use Rattle.lock_rules.specs.declared.view.Phase.TheVariants.{Idle, Queued};

use crate::token::{Placed, Queueing};
use crate::view::View;
use atomic_table::{Badge, Seat};

/// A pass that isn't in use. `mark` is the number by which the lock's words name it, where they do: its number, its node (CLH), or its
/// last ticket.
#[derive(Drop)]
pub struct Pass {
    pub badge: Badge<View>,
    pub mark: u64,
    pub ghost idle: { IsSeated Idle badge },
    pub ghost marked: { mark ≡ mark_of (view_of badge) },
}

/// A pass in the queue. `predecessor` is the word that its swap of the tail found; it is 0 in a Ticket lock.
#[derive(Drop)]
pub struct Queue {
    pub badge: Badge<View>,
    pub mark: u64,
    pub predecessor: u64,
    pub ghost queued: { IsSeated Queued badge },
    pub ghost marked: { mark ≡ mark_of (view_of badge) },
    pub ghost behind: { predecessor ≡ (view_of badge).predecessor },
}

impl Placed for Pass {
    ghost place = { λ p. badge_place p.badge };

    ghost entries = { λ p. (view_of p.badge).entries };
}

impl Queueing for Queue {
    ghost waiting = { λ q. badge_waiting q.badge };
}

impl Pass {
    /// The pass of an idle seat and its mark.
    pub fn of<V>(seat: Seat<Option<V>, View>, mark: u64) -> Pass
        requires idle { seat.me.0.phase ≡ Idle }
        requires plain { IsPlain seat.me.0 }
        requires told { IsTold seat.me.0 }
        requires row { IsRowOf seat.me.0 seat.table_id }
        requires empty { seat.me.1 ≡ [] }
        requires marked { mark ≡ mark_of seat.me.0 }
        ensures table { result.badge.table_id ≡ seat.table_id }
        ensures view { view_of result.badge ≡ seat.me.0 }
        ensures mark { result.mark ≡ mark }
    {
        let badge = seat.into_badge();
        Pass { badge, mark }
    }

    /// The seat of the pass, and its mark.
    pub fn into_parts<V>(self) -> (Seat<Option<V>, View>, u64)
        ensures table { result.0.table_id ≡ self.badge.table_id }
        ensures view { result.0.me ≡ (view_of self.badge, []) }
        ensures mark { result.1 ≡ mark_of (view_of self.badge) }
    {
        let Pass { badge, mark } = self;
        (badge.into_seat(), mark)
    }
}

impl Queue {
    /// The token of a queued seat, its mark, and that of the pass before it.
    pub fn of<V>(seat: Seat<Option<V>, View>, mark: u64, predecessor: u64) -> Queue
        requires queued { seat.me.0.phase ≡ Queued }
        requires plain { IsPlain seat.me.0 }
        requires told { IsTold seat.me.0 }
        requires row { IsRowOf seat.me.0 seat.table_id }
        requires empty { seat.me.1 ≡ [] }
        requires marked { mark ≡ mark_of seat.me.0 }
        requires behind { predecessor ≡ seat.me.0.predecessor }
        ensures table { result.badge.table_id ≡ seat.table_id }
        ensures view { view_of result.badge ≡ seat.me.0 }
        ensures marks { (result.mark ≡ mark) × (result.predecessor ≡ predecessor) }
    {
        let badge = seat.into_badge();
        Queue {
            badge,
            mark,
            predecessor,
        }
    }

    /// The seat of the pass, its mark and its predecessor.
    pub fn into_parts<V>(self) -> (Seat<Option<V>, View>, u64, u64)
        ensures table { result.0.table_id ≡ self.badge.table_id }
        ensures view { result.0.me ≡ (view_of self.badge, []) }
        ensures mark { result.1 ≡ mark_of (view_of self.badge) }
        ensures predecessor { result.2 ≡ (view_of self.badge).predecessor }
    {
        let Queue {
            badge,
            mark,
            predecessor,
        } = self;
        (badge.into_seat(), mark, predecessor)
    }
}
