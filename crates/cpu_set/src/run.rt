//! Runs of consecutive numbers.

/// The numbers from `first` to `last`, both among them.
#[derive(Clone, Copy)]
pub(crate) struct Run {
    pub(crate) first: u32,
    pub(crate) last: u32,
}
