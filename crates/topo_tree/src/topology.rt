//! A topology and its look-ups.
ghost use Rattle.std.specs.Prelude.{◌≡◌, ◌<◌, ◌≤◌, ◌++◌, ◌∷◌, [], All, Some, None, IfOk, OnOk, IfErr, IfSome};
ghost use Rattle.synth_text.specs.Canonical.{canonical};
ghost use Rattle.out_of_memory.specs.Memory.{UnlessMemory};
ghost use Rattle.synth_text.specs.Limits.{pu_limit};
ghost use Rattle.synth_text.specs.Sound.{IsSound};
ghost use Rattle.topo_tree.specs.Objects.{depth_count, kind_at, count_of, carrier_of, IsLayer, IsObject, parent_of, children_of};
ghost use Rattle.topo_tree.specs.Building.{build_fault, IsBuilt};
ghost use Rattle.topo_tree.specs.Coverage.{set_of, physical_of, leaf_of};
ghost use Rattle.topo_tree.specs.Naming.{layer_named, depth_named};
ghost use Rattle.topo_tree.specs.Order.{tree_order};
ghost use Rattle.topo_tree.specs.Lines.{group_number, topology_text};

use crate::fault::BuildFault;
use crate::layer::{Layer, Object};
use crate::sets::depth_sets;
use crate::tree::Tree;
use cpu_set::CpuSet;
use out_of_memory::OutOfMemory;
use std::alloc::Global;
use std::marker::Model;
use synth_text::{Description, Kind};

/// The tree of objects of a description and their sets, which contracts see as that description.
#[derive(Drop)]
pub struct Topology {
    tree: Tree,
    sets: Vec<Vec<CpuSet>>,
}

impl Model for Topology {
    ghost use Rattle.synth_text.specs.declared.description.Description.{Description as Described};

    ghost Value = { Described };

    ghost use Rattle.topo_tree.specs.Tables.{IsTabled};

    ghost view = { λ topology. topology.tree };

    ghost invariant = { IsTabled };
}

impl Topology {
    /// Builds the tree of a description that a text describes. It is refused for the first rule that its physical
    /// numbers break: those of the memory from the left, then those of the PUs.
    pub fn build(alloc: Global, description: Description) -> Result<Topology, BuildFault>
        requires { IsSound description }
        ensures built { IfOk result (λ topology. topology ≡ description) }
        ensures accepted { OnOk result (build_fault description ≡ None) }
        ensures refused { IfErr result (λ fault. UnlessMemory BuildFault.OutOfMemory fault (build_fault description ≡ Some fault)) }
    {
        let tree = Tree::build(alloc, description)?;
        match Topology::from_tree(alloc, tree) {
            Ok(topology) => Ok(topology),
            Err(OutOfMemory) => Err(BuildFault::OutOfMemory),
        }
    }

    /// A tree, with the sets of its objects.
    pub fn from_tree(alloc: Global, tree: Tree) -> Result<Topology, OutOfMemory>
        ensures { IfOk result (λ topology. topology ≡ tree) }
    {
        let sets = depth_sets(alloc, tree.description().levels.as_slice(), tree.pus())?;
        Ok(Topology { tree, sets })
    }

    /// The number of depths: Machine, and one for each level.
    pub fn depths(&self) -> u32
        ensures count { result ≡ depth_count self.now }
        // What every topology keeps, for callers' proofs.
        ensures built { IsBuilt self.now }
    {
        self.tree.depths()
    }

    /// The kind of the objects of a depth.
    pub fn kind(&self, depth: u32) -> Kind
        requires { depth < depth_count self.now }
        ensures { result ≡ kind_at self.now depth }
    {
        self.tree.kind(depth)
    }

    /// The depth of the objects that carry the nodes of memory; `None` where the description has no memory.
    pub fn carrier(&self) -> Option<u32>
        ensures depth { result ≡ carrier_of self.now }
        ensures fit { IfSome result (λ depth. depth < depth_count self.now) }
    {
        self.tree.carrier()
    }

    /// How many objects a layer has; 0 nodes of memory where the description has no memory.
    pub fn count(&self, layer: Layer) -> u32
        requires { IsLayer self.now layer }
        ensures count { result ≡ count_of self.now layer }
        ensures few { result ≤ pu_limit }
    {
        self.tree.count(layer)
    }

    /// The numbers of the PUs that an object covers. A NUMANode has the set of the object that carries it.
    pub fn set(&self, object: Object) -> &CpuSet
        requires { IsObject self.now object }
        ensures { result.now ≡ set_of self.now object.layer object.index }
    {
        let depth = self.tree.depth_of(object.layer);
        &self.sets[depth as usize][object.index as usize]
    }

    /// The physical number of a PU or a NUMANode, and the logical number of any other object.
    pub fn physical(&self, object: Object) -> u32
        requires { IsObject self.now object }
        ensures { result ≡ physical_of self.now object.layer object.index }
    {
        self.tree.physical(object)
    }

    /// The object above, which for a NUMANode is its carrier; `None` for Machine.
    pub fn parent(&self, object: Object) -> Option<Object>
        requires { IsObject self.now object }
        ensures parent { result ≡ parent_of self.now object.layer object.index }
        ensures fit { IfSome result (IsObject self.now) }
    {
        self.tree.parent(object)
    }

    /// The first index and the number of the objects one depth below; (0, 0) for a NUMANode, and the number 0 for a PU.
    pub fn children(&self, object: Object) -> (u32, u32)
        requires { IsObject self.now object }
        ensures { result ≡ children_of self.now object.layer object.index }
    {
        self.tree.children(object)
    }

    /// The logical number of the PU that has a physical number; `None` where none has it.
    pub fn leaf_of(&self, physical: u32) -> Option<u32>
        ensures { result ≡ leaf_of self.now physical }
    {
        self.tree.leaf_of(physical)
    }

    /// The layer that a word names, without regard to case: that of its kind, where exactly one has it, and for
    /// `group` with digits the Group layer with that number, counted from the root. `None` where it names no layer.
    pub fn layer_named(&self, word: &[u8]) -> Option<Layer>
        ensures layer { result ≡ layer_named self.now word.now }
        ensures fit { IfSome result (IsLayer self.now) }
    {
        self.tree.layer_named(word)
    }

    /// The depth that a word names, as `layer_named` reads it. A name of NUMANode stands for the depth that carries the
    /// memory. `None` where the word names no layer.
    pub fn depth_named(&self, word: &[u8]) -> Option<u32>
        ensures depth { result ≡ depth_named self.now word.now }
        ensures fit { IfSome result (λ depth. depth < depth_count self.now) }
    {
        self.tree.depth_named(word)
    }

    /// The number of a depth's Groups: how many Group levels stand above it.
    pub fn group_number(&self, depth: u32) -> u32
        requires { depth < depth_count self.now }
        ensures { result ≡ group_number self.now depth }
    {
        self.tree.group_number(depth)
    }

    /// The objects of all depths in tree order: each before all that lie under it, these in their order. The nodes of
    /// memory are left out.
    pub fn tree_order(&self, alloc: Global) -> Result<Vec<Object>, OutOfMemory>
        ensures order { IfOk result (λ objects. objects.items ≡ tree_order self.now) }
        ensures objects { IfOk result (λ objects. All (IsObject self.now) objects.items) }
    {
        self.tree.tree_order(alloc)
    }

    /// The canonical text of the description, and a line end.
    pub fn export(&self, alloc: Global) -> Result<Vec<u8>, OutOfMemory>
        ensures { IfOk result (λ text. text.items ≡ canonical self.now ++ 10 ∷ []) }
    {
        self.tree.export(alloc)
    }

    /// The tree of objects, one a line.
    pub fn show(&self, alloc: Global) -> Result<Vec<u8>, OutOfMemory>
        ensures { IfOk result (λ text. text.items ≡ topology_text self.now) }
    {
        self.tree.show(alloc)
    }

    // The tree.
    pub(crate) fn tree(&self) -> &Tree
        ensures { result.now ≡ self.now }
    {
        &self.tree
    }
}
