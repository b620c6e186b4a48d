//! What is said of a printed text.

/// Whether a text is the printed text of a run.
#[derive(Clone, Copy, Debug, PartialEq, Eq)]
pub enum Verdict {
    /// It is.
    Yes,
    /// It isn't.
    No {
        /// The number of the first broken line, counted from 0. A line that is missing has the number that it would have.
        line: u32,
    },
}
