//! Which context of a level a token is of.

/// A context of a level: the node under which the context stands, its number, and the level. The node and the number move as one word.
#[derive(Clone, Copy, Drop)]
pub(crate) struct ContextId {
    pub(crate) node: u32,
    pub(crate) number: u32,
    pub(crate) level: u32,
}
