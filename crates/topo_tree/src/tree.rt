//! The tree of a description, without a table of the sets of its objects.
ghost use Rattle.std.specs.Prelude.{◌≡◌, ◌<◌, ◌≤◌, Some, None, IfOk, OnOk, IfErr};
ghost use Rattle.out_of_memory.specs.Memory.{UnlessMemory};
ghost use Rattle.synth_text.specs.Limits.{pu_limit};
ghost use Rattle.synth_text.specs.Rules.{pu_count};
ghost use Rattle.synth_text.specs.Sound.{IsSound};
ghost use Rattle.topo_tree.specs.Objects.{depth_count, kind_at, count_at, count_of, IsLayer, IsObject};
ghost use Rattle.topo_tree.specs.Building.{pu_numbers, build_fault, IsBuilt};
ghost use Rattle.topo_tree.specs.Coverage.{physical_of, object_over};

use crate::building::{node_numbers, pu_numbers};
use crate::counts::depth_counts;
use crate::fault::BuildFault;
use crate::layer::{Layer, Object};
use std::alloc::Global;
use std::marker::Model;
use synth_text::{Description, Kind};

/// The tree of objects of a description, without a table of their sets, which it makes as they are asked for. Contracts see
/// it as that description.
#[derive(Drop)]
pub struct Tree {
    description: Description,
    counts: Vec<u32>,
    numbers: Vec<u32>,
    nodes: Vec<u32>,
}

impl Model for Tree {
    ghost use Rattle.synth_text.specs.declared.description.Description.{Description as Described};

    ghost Value = { Described };

    ghost use Rattle.topo_tree.specs.Tables.{IsNumbered};

    ghost view = { λ tree. tree.description };

    ghost invariant = { IsNumbered };
}

impl Tree {
    /// Builds the tree of a description that a text describes. It is refused for the first rule that its physical
    /// numbers break: those of the memory from the left, then those of the PUs.
    pub fn build(alloc: Global, description: Description) -> Result<Tree, BuildFault>
        requires { IsSound description }
        ensures built { IfOk result (λ tree. tree ≡ description) }
        ensures accepted { OnOk result (build_fault description ≡ None) }
        ensures refused { IfErr result (λ fault. UnlessMemory BuildFault.OutOfMemory fault (build_fault description ≡ Some fault)) }
    {
        let nodes = node_numbers(alloc, &description)?;
        let numbers = pu_numbers(alloc, &description)?;
        let counts = depth_counts(alloc, description.levels.as_slice())?;
        Ok(Tree {
            description,
            counts,
            numbers,
            nodes,
        })
    }

    // The description.
    pub(crate) fn description(&self) -> &Description
        ensures description { result.now ≡ self.now }
        ensures built { IsBuilt self.now }
    {
        &self.description
    }

    // The physical numbers of the PUs, by their positions.
    pub(crate) fn pus(&self) -> &[u32]
        ensures numbers { result.now ≡ pu_numbers self.now }
        ensures built { IsBuilt self.now }
    {
        &self.numbers
    }

    /// The number of depths: Machine, and one for each level.
    pub fn depths(&self) -> u32
        ensures count { result ≡ depth_count self.now }
        // What every tree keeps, for callers' proofs.
        ensures built { IsBuilt self.now }
    {
        self.counts.len() as u32
    }

    /// The kind of the objects of a depth.
    pub fn kind(&self, depth: u32) -> Kind
        requires { depth < depth_count self.now }
        ensures { result ≡ kind_at self.now depth }
    {
        if depth == 0 {
            Kind::Machine
        } else {
            self.description.levels.as_slice()[depth as usize - 1].kind
        }
    }

    /// How many objects a layer has; 0 nodes of memory where the description has no memory.
    pub fn count(&self, layer: Layer) -> u32
        requires { IsLayer self.now layer }
        ensures count { result ≡ count_of self.now layer }
        ensures few { result ≤ pu_limit }
    {
        match layer {
            Layer::Depth(depth) => self.counts[depth as usize],
            Layer::Memory => self.nodes.len() as u32,
        }
    }

    /// The object of a depth over a PU, in constant time.
    pub fn over(&self, depth: u32, pu: u32) -> u32
        requires { depth < depth_count self.now }
        ensures object { result ≡ object_over self.now depth pu }
        ensures fit { pu < pu_count self.now → result < count_at self.now depth }
    {
        pu / (self.numbers.len() as u32 / self.counts[depth as usize])
    }

    /// The physical number of a PU or a NUMANode, and the logical number of any other object.
    pub fn physical(&self, object: Object) -> u32
        requires { IsObject self.now object }
        ensures { result ≡ physical_of self.now object.layer object.index }
    {
        match object.layer {
            Layer::Depth(depth) if depth as usize == self.description.levels.as_slice().len() => {
                self.numbers[object.index as usize]
            }
            Layer::Depth(_) => object.index,
            Layer::Memory => self.nodes[object.index as usize],
        }
    }
}
