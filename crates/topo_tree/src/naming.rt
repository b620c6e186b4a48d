//! Which layer a word names.
ghost use Rattle.std.specs.Prelude.{◌≡◌, ◌<◌, slice_get, option_map, IfSome};
ghost use Rattle.topo_tree.specs.declared.layer.Layer.TheVariants as layers;
ghost use Rattle.topo_tree.specs.Objects.{depth_count, IsLayer};
ghost use Rattle.topo_tree.specs.Lines.{group_number};
ghost use Rattle.topo_tree.specs.Naming.{depths_of, only, layer_named, depth_named};

use crate::layer::Layer;
use crate::tree::Tree;
use synth_text::{Kind, Name, read_name};

impl Tree {
    /// The layer that a word names, without regard to case: that of its kind, where exactly one has it, and for
    /// `group` with digits the Group layer with that number, counted from the root. `None` where it names no layer.
    pub fn layer_named(&self, word: &[u8]) -> Option<Layer>
        ensures layer { result ≡ layer_named self.now word.now }
        ensures fit { IfSome result (IsLayer self.now) }
    {
        match read_name(word) {
            None => None,
            Some(Name::Kind(Kind::NumaNode)) => self.memory_layer(),
            Some(Name::Kind(kind)) => as_layer(self.only_depth(kind)),
            Some(Name::Group(number)) => as_layer(self.numbered_depth(Kind::Group, number)),
        }
    }

    /// The depth that a word names, as `layer_named` reads it. A name of NUMANode stands for the depth that carries the
    /// memory. `None` where the word names no layer.
    pub fn depth_named(&self, word: &[u8]) -> Option<u32>
        ensures depth { result ≡ depth_named self.now word.now }
        ensures fit { IfSome result (λ depth. depth < depth_count self.now) }
    {
        match self.layer_named(word)? {
            Layer::Depth(depth) => Some(depth),
            Layer::Memory => self.carrier(),
        }
    }

    /// The number of a depth's Groups: how many Group levels stand above it.
    pub fn group_number(&self, depth: u32) -> u32
        requires { depth < depth_count self.now }
        ensures { result ≡ group_number self.now depth }
    {
        let mut number = 0;
        for above in 0..depth {
            if self.kind(above).is_same(Kind::Group) {
                number += 1;
            }
        }
        number
    }

    // The layer of the nodes of memory, where the description has memory.
    fn memory_layer(&self) -> Option<Layer>
        ensures { result ≡ option_map (λ memory. layers.Memory) self.now.memory }
    {
        match &self.description().memory {
            None => None,
            Some(_) => Some(Layer::Memory),
        }
    }

    // The depth of a kind, where exactly one has it.
    fn only_depth(&self, kind: Kind) -> Option<u32>
        ensures depth { result ≡ only (depths_of self.now kind) }
        ensures fit { IfSome result (λ depth. depth < depth_count self.now) }
    {
        match (self.numbered_depth(kind, 0), self.numbered_depth(kind, 1)) {
            (Some(depth), None) => Some(depth),
            _ => None,
        }
    }

    // The depth of a kind that has so many depths of that kind above it.
    fn numbered_depth(&self, kind: Kind, number: u32) -> Option<u32>
        ensures depth { result ≡ slice_get (depths_of self.now kind) number }
        ensures fit { IfSome result (λ depth. depth < depth_count self.now) }
    {
        let mut above = 0;
        for depth in 0..self.depths() {
            if self.kind(depth).is_same(kind) {
                if above == number {
                    return Some(depth);
                }
                above += 1;
            }
        }
        None
    }
}

// The layer of a depth.
fn as_layer(depth: Option<u32>) -> Option<Layer>
    ensures { result ≡ option_map layers.Depth depth }
{
    match depth {
        None => None,
        Some(depth) => Some(Layer::Depth(depth)),
    }
}
