//! What a command asks for.
ghost use Rattle.std.specs.Prelude.{◌≡◌};
ghost use Rattle.mc_text.specs.Request.{is_quit, request_of};

use crate::keys::Keys;

/// How an item is stored.
#[derive(Clone, Copy, Debug, PartialEq, Eq)]
pub enum How {
    /// The item is stored, whether its key is present or not.
    Set,
    /// The item is stored where its key is absent.
    Add,
    /// The item is stored where its key is present.
    Replace,
    /// The block is put behind the one of the item that is present.
    Append,
    /// The block is put in front of the one of the item that is present.
    Prepend,
    /// The item is stored where the item that is present has the unique that the command names.
    Cas,
}

/// Why a line, or what stands behind it, asks for nothing. The number of a fault is its place in this list, from 1.
#[derive(Clone, Copy, Debug, PartialEq, Eq)]
pub enum LineFault {
    /// The line begins with no command's name, or the number of its words or the word in the place of `noreply` is wrong.
    Unknown,
    /// A word doesn't fit its place.
    Format,
    /// The block isn't followed by `\r\n`.
    Chunk,
    /// The block has over 1,048,576 bytes.
    TooLarge,
    /// A delta isn't a decimal number below 2^64.
    Delta,
}

/// A command. Its keys, block and spelling are parts of the text that it stands in.
#[derive(Clone, Copy, Debug)]
pub enum Command<'a> {
    /// Stores an item.
    Store {
        /// How it is stored.
        how: How,
        /// Its key.
        key: &'a [u8],
        /// A number that is kept with it.
        flags: u32,
        /// When it expires: never, where it is 0.
        exptime: i32,
        /// The unique number that the present item must have, and 0 for a command that names none.
        unique: u64,
        /// Its value.
        block: &'a [u8],
        /// Whether the reply is left out.
        quiet: bool,
        /// The bytes of the command.
        spelling: &'a [u8],
    },
    /// Gives the items of some keys.
    Get {
        /// Whether the items' uniques are given too.
        uniques: bool,
        /// The keys, in the order of the line.
        keys: Keys<'a>,
        /// The bytes of the command.
        spelling: &'a [u8],
    },
    /// Removes an item.
    Delete {
        /// Its key.
        key: &'a [u8],
        /// Whether the reply is left out.
        quiet: bool,
        /// The bytes of the command.
        spelling: &'a [u8],
    },
    /// Counts the number that an item holds up or down.
    Count {
        /// Whether it is counted up.
        up: bool,
        /// The item's key.
        key: &'a [u8],
        /// By how much.
        delta: u64,
        /// Whether the reply is left out.
        quiet: bool,
        /// The bytes of the command.
        spelling: &'a [u8],
    },
    /// Sets when an item expires.
    Touch {
        /// Its key.
        key: &'a [u8],
        /// When it expires: never, where it is 0.
        exptime: i32,
        /// Whether the reply is left out.
        quiet: bool,
        /// The bytes of the command.
        spelling: &'a [u8],
    },
    /// Removes all items.
    Flush {
        /// Whether the reply is left out.
        quiet: bool,
        /// The bytes of the command.
        spelling: &'a [u8],
    },
    /// Asks for the version.
    Version {
        /// The bytes of the command.
        spelling: &'a [u8],
    },
    /// Sets how much is logged, which changes nothing here.
    Verbosity {
        /// Whether the reply is left out.
        quiet: bool,
        /// The bytes of the command.
        spelling: &'a [u8],
    },
    /// Sets the moment, by which items expire.
    Moment {
        /// The moment from now on.
        moment: u32,
        /// Whether the reply is left out.
        quiet: bool,
        /// The bytes of the command.
        spelling: &'a [u8],
    },
    /// Ends the section's commands.
    Quit {
        /// The bytes of the command.
        spelling: &'a [u8],
    },
    /// A line that asks for nothing, or a storage line whose block can't be stored.
    Bad {
        /// Why.
        fault: LineFault,
        /// The bytes of the command.
        spelling: &'a [u8],
    },
}

impl<'a> Command<'a> {
    ghost use Rattle.mc_text.specs.Request.{spelling_of};

    /// The bytes of the command: its line, and for a storage command what stands behind the line too.
    pub fn spelling(&self) -> &'a [u8]
        ensures { result.now ≡ spelling_of self.now }
    {
        match self {
            Command::Store { spelling, .. }
            | Command::Get { spelling, .. }
            | Command::Delete { spelling, .. }
            | Command::Count { spelling, .. }
            | Command::Touch { spelling, .. }
            | Command::Flush { spelling, .. }
            | Command::Version { spelling }
            | Command::Verbosity { spelling, .. }
            | Command::Moment { spelling, .. }
            | Command::Quit { spelling }
            | Command::Bad { spelling, .. } => spelling,
        }
    }
}

/// Whether a command ends its section.
pub(crate) fn is_quit(command: &Command<'_>) -> bool
    ensures { result ≡ is_quit (request_of command.now) }
{
    matches!(command, Command::Quit { .. })
}
