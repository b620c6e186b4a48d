//! What a storage command asks for.
use mc_text::How;

/// A storage command.
#[derive(Clone, Copy)]
pub(crate) struct Storing<'a> {
    pub how: How,
    pub key: &'a [u8],
    pub flags: u32,
    pub exptime: i32,
    pub unique: u64,
    pub block: &'a [u8],
    pub quiet: bool,
}
