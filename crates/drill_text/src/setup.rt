//! What a drill runs on, and how large it is.

/// The machine.
pub const MACHINE: &[u8] = b"Package:2 L3Cache:2 Core:4 PU:2";

/// The levels of its lock, the lowest first.
pub const LEVELS: &[u8] = b"l3,package,machine";

/// The basic locks of these levels.
pub const LOCKS: &[u8] = b"mcs-clh-hem";

/// How often a level below the top keeps its lock, at most.
pub const KEEPS: &[u8] = b"16";

/// How many callers there are. Each may stand on any PU.
pub const CALLERS: u32 = 64;

/// How many keys there are.
pub(crate) const KEYS: u32 = 8;

/// How many numbers are added.
pub(crate) const ADDITIONS: u32 = 20_000;
