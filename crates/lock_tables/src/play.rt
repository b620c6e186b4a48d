//! The steps of an algorithm on its words, one call a form of step.
ghost use Rattle.std.specs.Prelude.{◌≡◌, ℕ, ◌<◌};
ghost use Rattle.lock_rules.specs.Rows.{row_of};
ghost use Rattle.lock_tables.specs.Kinds.{load as loading, store as storing, add as adding, may_give, Carries, Expects, Made};
ghost use Rattle.lock_tables.specs.Kinds.{swap as swapping, exchange as exchanging};
ghost use Rattle.lock_tables.specs.Words.{words_key, words_table, IsSeatIn};

use crate::kinds::{Finding, KindOf, Storing};
use crate::lock_words::LockWords;
use crate::rule::Disciplined;
use atomic_table::Seat;
use lock_rules::{Cargo, View};

impl<V: Cargo, D: Disciplined> LockWords<V, D> {
    /// Loads the word of this kind of step.
    #[inline]
    pub fn load<K: KindOf<D>>(&self, seat: &mut Seat<Option<V>, View>, word: usize) -> u64
        requires form { K.kind.form ≡ loading }
        requires word { word ≡ K.kind.word seat.old.me.0 }
        requires within { word < row_of D.discipline.algorithm seat.old.me.0.count }
        requires own { IsSeatIn D.discipline.algorithm self.now seat.old }
        requires asks { K.kind.asks seat.old.me.0 }
        requires carries { Carries V.fit V.tag V.parked (may_give K.kind.outcome) seat.old.me }
        ensures own { IsSeatIn D.discipline.algorithm self.now seat.new }
        ensures told { K.kind.tells seat.old.me.0 result }
        ensures step { Made D.discipline V.fit V.tag V.parked K.kind seat.old.me result seat.new.me }
    {
        D::is_disciplined();
        K::is_kept();
        self.table.shared.load::<Finding<D, K>>(seat, word)
    }

    /// Stores a number in the word of this kind of step.
    #[inline]
    pub fn store<K: KindOf<D>>(&self, seat: &mut Seat<Option<V>, View>, word: usize, new: u64)
        requires form { K.kind.form ≡ storing }
        requires word { word ≡ K.kind.word seat.old.me.0 }
        requires within { word < row_of D.discipline.algorithm seat.old.me.0.count }
        requires operand { new ≡ K.kind.operand seat.old.me.0 }
        requires own { IsSeatIn D.discipline.algorithm self.now seat.old }
        requires asks { K.kind.asks seat.old.me.0 }
        requires carries { Carries V.fit V.tag V.parked (may_give K.kind.outcome) seat.old.me }
        ensures own { IsSeatIn D.discipline.algorithm self.now seat.new }
        ensures step { (found : ℕ) × K.kind.tells seat.old.me.0 found
            × Made D.discipline V.fit V.tag V.parked K.kind seat.old.me found seat.new.me }
    {
        D::is_disciplined();
        K::is_kept();
        self.table.shared.store::<Storing<D, K>>(seat, word, new);
    }

    /// Swaps the word of this kind of step for a number.
    #[inline]
    pub fn swap<K: KindOf<D>>(&self, seat: &mut Seat<Option<V>, View>, word: usize, new: u64) -> u64
        requires form { K.kind.form ≡ swapping }
        requires word { word ≡ K.kind.word seat.old.me.0 }
        requires within { word < row_of D.discipline.algorithm seat.old.me.0.count }
        requires operand { new ≡ K.kind.operand seat.old.me.0 }
        requires own { IsSeatIn D.discipline.algorithm self.now seat.old }
        requires asks { K.kind.asks seat.old.me.0 }
        requires carries { Carries V.fit V.tag V.parked (may_give K.kind.outcome) seat.old.me }
        ensures own { IsSeatIn D.discipline.algorithm self.now seat.new }
        ensures told { K.kind.tells seat.old.me.0 result }
        ensures step { Made D.discipline V.fit V.tag V.parked K.kind seat.old.me result seat.new.me }
    {
        D::is_disciplined();
        K::is_kept();
        self.table.shared.swap::<Finding<D, K>>(seat, word, new)
    }

    /// Adds to the word of this kind of step.
    #[inline]
    pub fn fetch_add<K: KindOf<D>>(
        &self,
        seat: &mut Seat<Option<V>, View>,
        word: usize,
        more: u64,
    ) -> u64
        requires form { K.kind.form ≡ adding }
        requires word { word ≡ K.kind.word seat.old.me.0 }
        requires within { word < row_of D.discipline.algorithm seat.old.me.0.count }
        requires operand { more ≡ K.kind.operand seat.old.me.0 }
        requires own { IsSeatIn D.discipline.algorithm self.now seat.old }
        requires asks { K.kind.asks seat.old.me.0 }
        requires carries { Carries V.fit V.tag V.parked (may_give K.kind.outcome) seat.old.me }
        ensures own { IsSeatIn D.discipline.algorithm self.now seat.new }
        ensures told { K.kind.tells seat.old.me.0 result }
        ensures step { Made D.discipline V.fit V.tag V.parked K.kind seat.old.me result seat.new.me }
    {
        D::is_disciplined();
        K::is_kept();
        self.table
            .shared
            .fetch_add::<Finding<D, K>>(seat, word, more)
    }

    /// Exchanges the word of this kind of step for `new` where it is `expected`. The answer is the word that was found.
    #[inline]
    pub fn compare_exchange<K: KindOf<D>>(
        &self,
        seat: &mut Seat<Option<V>, View>,
        word: usize,
        expected: u64,
        new: u64,
    ) -> u64
        requires form { K.kind.form ≡ exchanging }
        requires word { word ≡ K.kind.word seat.old.me.0 }
        requires within { word < row_of D.discipline.algorithm seat.old.me.0.count }
        requires operand { new ≡ K.kind.operand seat.old.me.0 }
        requires expected { Expects K.kind.outcome seat.old.me.0 expected }
        requires own { IsSeatIn D.discipline.algorithm self.now seat.old }
        requires asks { K.kind.asks seat.old.me.0 }
        requires carries { Carries V.fit V.tag V.parked (may_give K.kind.outcome) seat.old.me }
        ensures own { IsSeatIn D.discipline.algorithm self.now seat.new }
        ensures told { K.kind.tells seat.old.me.0 result }
        ensures step { Made D.discipline V.fit V.tag V.parked K.kind seat.old.me result seat.new.me }
    {
        D::is_disciplined();
        K::is_kept();
        self.table
            .shared
            .compare_exchange::<Finding<D, K>>(seat, word, expected, new)
    }
}
