//! What is asked of a topology.

use cpu_set::CpuSet;
use synth_text::Sequence;
use topo_tree::{Layer, Object};

/// What a term does with its location's set.
#[derive(Clone, Copy, Debug, PartialEq, Eq)]
pub enum Op {
    /// Adds it.
    Join,
    /// Removes it, from `~`.
    Remove,
    /// Intersects with it, from `x`.
    Meet,
    /// Takes the symmetric difference, from `^`.
    Differ,
}

/// Which numbers the index of a part picks.
#[derive(Clone, Copy, Debug, PartialEq, Eq)]
pub enum Pick {
    /// `k`: one number.
    One(u32),
    /// `a-b`: the numbers from one to another, none where the first is above the last.
    Span { first: u32, last: u32 },
    /// `a-`: the numbers from one on.
    From(u32),
    /// `a:n`: so many numbers from one on. Logical numbers go round.
    Wrap { first: u32, count: u32 },
    /// `all`: every number.
    Every,
    /// `odd`: the odd numbers.
    Odd,
    /// `even`: the even numbers.
    Even,
}

/// A part `name:index` of a location.
#[derive(Clone, Copy, Debug, PartialEq, Eq)]
pub struct Part {
    /// The layer that its name names.
    pub layer: Layer,
    /// Its index.
    pub pick: Pick,
}

/// A set of PUs, as a word gives it.
#[derive(Drop)]
pub enum Location {
    /// `all` or `root`: the PUs of the machine.
    All,
    /// A set in hexadecimal, which may go beyond the topology.
    Numbers(CpuSet),
    /// Parts, walked from the left.
    Parts(Sequence<Part>),
}

/// A location with what it does to the set so far.
#[derive(Drop)]
pub struct Term {
    /// What it does.
    pub op: Op,
    /// The location.
    pub location: Location,
}

/// How indexes number the candidates.
#[derive(Clone, Copy, Debug, PartialEq, Eq)]
pub enum Numbering {
    /// From 0 on, in logical order.
    Logical,
    /// By the physical numbers of PUs and NUMANodes; other objects by their logical numbers in their layer.
    Physical,
}

/// A step of a path of objects, each inside the one before.
#[derive(Clone, Copy, Debug, PartialEq, Eq)]
pub struct Step2 {
    /// The object.
    pub object: Object,
    /// Its place among the objects of its layer inside the step before, from 0.
    pub position: u32,
}

/// Objects, each inside the one before.
#[derive(Debug, Drop)]
pub struct Path {
    /// The steps, from the outermost.
    pub steps: Sequence<Step2>,
}
