//! Threads that serve callers in turn.
ghost use Rattle.std.specs.Prelude.{◌<◌, ◌≤◌};

/// Threads that serve callers in turn.
#[derive(Clone, Copy)]
pub struct Sharing {
    /// How many there are, the calling one among them.
    pub threads: u32,
    /// How many commands of a caller one serves at a time.
    pub quantum: u32,
    pub ghost some_threads: { 0 < threads },
    pub ghost few_threads: { threads ≤ 256 },
    pub ghost some_commands: { 0 < quantum },
}
