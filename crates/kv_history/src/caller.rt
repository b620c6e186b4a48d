//! What the journal keeps of a caller.
use mc_text::Tally;

/// A caller's section, and what that holds.
#[derive(Clone, Copy)]
pub(crate) struct Caller<'a> {
    pub section: &'a [u8],
    pub tally: Tally<'a>,
}
