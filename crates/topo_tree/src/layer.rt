//! How objects are named.

/// A layer of objects.
#[derive(Clone, Copy, Debug, PartialEq, Eq)]
pub enum Layer {
    /// The objects of a depth: Machine at 0, the PUs at the greatest.
    Depth(u32),
    /// The nodes of memory.
    Memory,
}

/// Machine.
pub const MACHINE: Object = Object {
    layer: Layer::Depth(0),
    index: 0,
};

/// An object: its layer, and its place among the objects of that layer, from 0.
#[derive(Clone, Copy, Debug, PartialEq, Eq)]
pub struct Object {
    /// The layer.
    pub layer: Layer,
    /// The logical number.
    pub index: u32,
}

/// Objects of one layer that stand side by side.
#[derive(Clone, Copy, Debug, PartialEq, Eq)]
pub struct Row {
    /// The first one's index.
    pub first: u32,
    /// How many there are.
    pub count: u32,
}
