//! The right of one caller to make its turns.
ghost use Rattle.std.specs.Prelude.{◌≡◌, ◌-◌, ◌^◌, ◌<◌, ◌≤◌, ◌↔◌, IsTrue, min};

use crate::view::View;
use atomic_table::Badge;
use std::marker::Model;

/// A caller's right to make turns in one trail. It can't be copied.
#[derive(Drop)]
pub struct Share {
    pub(crate) badge: Badge<View>,
    pub(crate) caller: u32,
    pub(crate) made: u64,
    pub(crate) quota: u64,
}

impl Model for Share {
    ghost use Rattle.keep_local.specs.States.{ShareState};

    ghost Value = { ShareState };

    ghost use Rattle.keep_local.specs.Shares.{share_state, IsShare};

    ghost view = { share_state };

    ghost invariant = { IsShare };
}

impl Share {
    /// The number of its caller.
    pub fn caller(&self) -> u32
        ensures { result ≡ self.now.caller }
    {
        self.caller
    }

    /// How many turns its caller has made, an open one included. Where these are more than 32 bits have, which is so of no recorded trail,
    /// it is the greatest number of 32 bits.
    pub fn made(&self) -> u32
        ensures made { self.now.quota < 2 ^ 32 → result ≡ self.now.made }
        ensures most { result ≡ min self.now.made (2 ^ 32 - 1) }
        ensures within { result ≤ self.now.quota }
    {
        clamped(self.made)
    }

    /// How many turns its caller may make. Where these are more than 32 bits have, which is so of no recorded trail, it is the greatest
    /// number of 32 bits.
    pub fn quota(&self) -> u32
        ensures quota { self.now.quota < 2 ^ 32 → result ≡ self.now.quota }
        ensures most { result ≡ min self.now.quota (2 ^ 32 - 1) }
    {
        clamped(self.quota)
    }

    /// How many turns its caller has made, an open one included, in 64 bits.
    pub fn turns_made(&self) -> u64
        ensures made { result ≡ self.now.made }
        ensures within { result ≤ self.now.quota }
    {
        self.made
    }

    /// How many turns its caller may make, in 64 bits.
    pub fn turns_allowed(&self) -> u64
        ensures { result ≡ self.now.quota }
    {
        self.quota
    }

    /// Whether its caller may make another turn.
    pub fn may_turn(&self) -> bool
        ensures { IsTrue result ↔ (self.now.made < self.now.quota) }
    {
        self.made < self.quota
    }
}

// The number, or the greatest of 32 bits where it has more.
pub(crate) fn clamped(number: u64) -> u32
    ensures { result ≡ min number (2 ^ 32 - 1) }
{
    if number < 1 << 32 {
        number as u32
    } else {
        u32::MAX
    }
}
