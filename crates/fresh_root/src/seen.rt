//! What a caller last saw of the history.
ghost use Rattle.std.specs.Prelude.{◌≡◌, length};

use crate::view::View;
use atomic_table::Badge;
use std::marker::Model;

/// The token of one caller of a `Fresh`. It can't be copied.
///
/// Contracts see of which `Fresh` it is (`fresh`), its `caller`, and `list`, the calls that it last saw.
#[derive(Drop)]
pub struct Seen {
    pub(crate) badge: Badge<View>,
    pub(crate) caller: u32,
    pub(crate) length: u32,
}

impl Model for Seen {
    ghost use Rattle.fresh_root.specs.States.{SeenState};

    ghost Value = { SeenState };

    ghost use Rattle.fresh_root.specs.Seens.{seen_state, IsSeen};

    ghost view = { seen_state };

    ghost invariant = { IsSeen };
}

impl Seen {
    /// The number of its caller.
    pub fn caller(&self) -> u32
        ensures { result ≡ self.now.caller }
    {
        self.caller
    }

    /// How many calls it last saw.
    pub fn length(&self) -> u32
        ensures { result ≡ length self.now.list }
    {
        self.length
    }
}
