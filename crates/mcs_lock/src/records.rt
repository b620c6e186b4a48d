//! The records of the passes, a line of words each.
ghost use Rattle.std.specs.Prelude.{◌≡◌, ◌<◌};
ghost use Rattle.lock_rules.specs.Rows.{row_of};
ghost use Rattle.lock_rules.specs.Views.{IsPlain, mark_of};
ghost use Rattle.lock_rules.specs.declared.view.Algorithm.TheVariants.{Mcs as mcs_algorithm};
ghost use Rattle.lock_tables.specs.Words.{IsSeatIn};
ghost use Rattle.mcs_lock.specs.Rule.{next, locked, name};

use crate::lock::Mcs;
use atomic_table::Seat;
use lock_rules::{Cargo, View};

/// Where the words of a pass are, and the name by which words name it.
#[derive(Clone, Copy, Drop)]
pub(crate) struct Record {
    pub(crate) next: usize,
    pub(crate) locked: usize,
    pub(crate) name: u64,
}

impl<V: Cargo> Mcs<V> {
    /// The record of a pass of this lock, of which the seat is one.
    #[inline]
    pub(crate) fn record_of(&self, _seat: &Seat<Option<V>, View>, pass: u64) -> Record
        requires own { IsSeatIn mcs_algorithm self.now.words _seat.now }
        requires below { pass < _seat.now.me.0.count }
        ensures next { result.next ≡ next pass }
        ensures next_within { result.next < row_of mcs_algorithm _seat.now.me.0.count }
        ensures locked { result.locked ≡ locked pass }
        ensures locked_within { result.locked < row_of mcs_algorithm _seat.now.me.0.count }
        ensures name { result.name ≡ name pass }
    {
        let next = (pass as usize + 2) * 16;
        Record {
            next,
            locked: next + 1,
            name: pass + 1,
        }
    }

    /// The record of the seat's own pass.
    #[inline]
    pub(crate) fn own_record(&self, seat: &Seat<Option<V>, View>, mark: u64) -> Record
        requires own { IsSeatIn mcs_algorithm self.now.words seat.now }
        requires plain { IsPlain seat.now.me.0 }
        requires mark { mark ≡ mark_of seat.now.me.0 }
        ensures number { mark ≡ seat.now.me.0.number }
        ensures next { result.next ≡ next seat.now.me.0.number }
        ensures next_within { result.next < row_of mcs_algorithm seat.now.me.0.count }
        ensures locked { result.locked ≡ locked seat.now.me.0.number }
        ensures locked_within { result.locked < row_of mcs_algorithm seat.now.me.0.count }
        ensures name { result.name ≡ name seat.now.me.0.number }
    {
        self.record_of(seat, mark)
    }
}
