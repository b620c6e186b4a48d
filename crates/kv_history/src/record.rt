//! What the journal keeps of an entry.

/// The place of a command, and where its reply ends: 32 bytes.
#[derive(Clone, Copy)]
pub(crate) struct Record<'a> {
    /// The bytes of the command, in its section.
    pub spelling: &'a [u8],
    /// Where its reply ends among the replies of all entries.
    pub end: usize,
    pub caller: u32,
    pub void: bool,
}
