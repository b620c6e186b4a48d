//! What a caller brings to a run.

/// A section of the input.
#[derive(Clone, Copy, Debug)]
pub struct Section<'a> {
    /// The logical number of the PU on which its caller stands.
    pub pu: u32,
    /// Its commands, and what stands behind them.
    pub bytes: &'a [u8],
}
