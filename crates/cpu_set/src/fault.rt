//! Why a text is refused.

use thiserror::Error;

/// The leftmost broken rule of a text, with the byte offset of its place, counted from 0.
#[derive(Clone, Copy, PartialEq, Eq, Debug, Error)]
pub enum SetFault {
    /// 1: a word or an item that has none of the forms.
    #[error("no set is spelled like the text at byte {at}")]
    Form { at: usize },
    /// 2: a number of 4,096 or more.
    #[error("the number at byte {at} is 4096 or more")]
    TooLarge { at: usize },
    /// 3: a set without an end.
    #[error("the set at byte {at} has no end")]
    Infinite { at: usize },
}
