//! What the seats of the table know that ties a trail and its shares.

/// How many turns a caller has made, and how many it may make. It exists in proofs alone, and no value of it is made.
pub struct Tally {
    pub caller: u32,
    pub made: u64,
    pub quota: u64,
}

/// What a seat knows. It exists in proofs alone, and no value of it is made.
///
/// The `home` seat is the trail's: it knows the quotas and the callers of all turns, in order. Every seat has the
/// tallies of some callers: a share's has that of its own one.
pub struct View {
    pub home: bool,
    // A clause reads an array as a list, of any length.
    pub quotas: [u64; 0],
    pub callers: [u32; 0],
    pub tallies: [Tally; 0],
}
