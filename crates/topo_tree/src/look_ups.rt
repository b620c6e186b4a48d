//! The objects above and below an object, and the PU that has a number.
ghost use Rattle.std.specs.Prelude.{◌≡◌, ◌<◌, ◌==◌, position, IfSome};
ghost use Rattle.topo_tree.specs.Objects.{depth_count, arity_at, carrier_of, IsObject, parent_of, children_of};
ghost use Rattle.topo_tree.specs.Building.{IsBuilt};
ghost use Rattle.topo_tree.specs.Coverage.{layer_depth, leaf_of};

use crate::layer::{Layer, Object};
use crate::tree::Tree;

impl Tree {
    /// The depth of the objects that carry the nodes of memory; `None` where the description has no memory.
    pub fn carrier(&self) -> Option<u32>
        ensures depth { result ≡ carrier_of self.now }
        ensures fit { IfSome result (λ depth. depth < depth_count self.now) }
    {
        match &self.description().memory {
            None => None,
            Some(memory) => Some(memory.above),
        }
    }

    /// The object above, which for a NUMANode is its carrier; `None` for Machine.
    pub fn parent(&self, object: Object) -> Option<Object>
        requires { IsObject self.now object }
        ensures parent { result ≡ parent_of self.now object.layer object.index }
        ensures fit { IfSome result (IsObject self.now) }
    {
        match object.layer {
            Layer::Depth(depth) => {
                if depth == 0 {
                    None
                } else {
                    Some(Object {
                        layer: Layer::Depth(depth - 1),
                        index: object.index / self.arity(depth - 1),
                    })
                }
            }
            Layer::Memory => Some(Object {
                layer: Layer::Depth(self.depth_of(Layer::Memory)),
                index: object.index,
            }),
        }
    }

    /// The first index and the number of the objects one depth below; (0, 0) for a NUMANode, and the number 0 for a PU.
    pub fn children(&self, object: Object) -> (u32, u32)
        requires { IsObject self.now object }
        ensures { result ≡ children_of self.now object.layer object.index }
    {
        match object.layer {
            Layer::Depth(depth) => {
                let arity = self.arity(depth);
                (object.index * arity, arity)
            }
            Layer::Memory => (0, 0),
        }
    }

    /// The logical number of the PU that has a physical number; `None` where none has it.
    pub fn leaf_of(&self, physical: u32) -> Option<u32>
        ensures { result ≡ leaf_of self.now physical }
    {
        match place_of(self.pus(), physical) {
            None => None,
            Some(place) => Some(place as u32),
        }
    }

    // The depth of a layer's objects, or of those that carry the nodes of memory; 0 where there are none.
    pub(crate) fn depth_of(&self, layer: Layer) -> u32
        ensures depth { result ≡ layer_depth self.now layer }
        ensures built { IsBuilt self.now }
    {
        match (layer, &self.description().memory) {
            (Layer::Depth(depth), _) => depth,
            (Layer::Memory, Some(memory)) => memory.above,
            (Layer::Memory, None) => 0,
        }
    }

    // How many children each object of a depth has.
    fn arity(&self, depth: u32) -> u32
        ensures arity { result ≡ arity_at self.now depth }
        ensures built { IsBuilt self.now }
    {
        match self.description().levels.as_slice().get(depth as usize) {
            Some(level) => level.arity,
            None => 0,
        }
    }
}

// The place of the first of these numbers that is this one.
fn place_of(numbers: &[u32], number: u32) -> Option<usize>
    ensures { result ≡ position (λ other. other == number) numbers.now }
{
    numbers.iter().position(|other| *other == number)
}
