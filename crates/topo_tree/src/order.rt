//! The objects of a tree, in tree order.
ghost use Rattle.std.specs.Prelude.{◌≡◌, ◌<◌, ◌++◌, length, All, IfOk, OnOk};
ghost use Rattle.synth_text.specs.Rules.{pu_count};
ghost use Rattle.topo_tree.specs.declared.layer.Layer.TheVariants as layers;
ghost use Rattle.topo_tree.specs.Objects.{IsObject};
ghost use Rattle.topo_tree.specs.Building.{IsBuilt};
ghost use Rattle.topo_tree.specs.Order.{tree_order};
ghost use Rattle.topo_tree.specs.Beginnings.{objects_at};

use crate::layer::{Layer, Object};
use crate::tree::Tree;
use out_of_memory::OutOfMemory;
use std::alloc::{AllocError, Global};

impl Tree {
    /// The objects of all depths in tree order: each before all that lie under it, these in their order. The nodes of
    /// memory are left out.
    pub fn tree_order(&self, alloc: Global) -> Result<Vec<Object>, OutOfMemory>
        ensures order { IfOk result (λ objects. objects.items ≡ tree_order self.now) }
        ensures objects { IfOk result (λ objects. All (IsObject self.now) objects.items) }
    {
        let mut objects = Vec::new(alloc);
        for position in 0..self.count(self.pu_layer()) {
            self.push_objects_at(&mut objects, position)?;
        }
        Ok(objects)
    }

    // The layer of the PUs.
    fn pu_layer(&self) -> Layer
        ensures layer { result ≡ layers.Depth (length self.now.levels) }
        ensures built { IsBuilt self.now }
    {
        Layer::Depth(self.depths() - 1)
    }

    // Appends all objects that have their first PU at a position, from the outermost in.
    fn push_objects_at(&self, objects: &mut Vec<Object>, position: u32) -> Result<(), AllocError>
        requires position { position < pu_count self.now }
        requires objects { All (IsObject self.now) objects.old.items }
        ensures order { OnOk result (objects.new.items ≡ objects.old.items ++ objects_at self.now position) }
        ensures objects { OnOk result (All (IsObject self.now) objects.new.items) }
    {
        let pus = self.count(self.pu_layer());
        for depth in 0..self.depths() {
            let width = pus / self.count(Layer::Depth(depth));
            if position % width == 0 {
                objects.push(Object {
                    layer: Layer::Depth(depth),
                    index: position / width,
                })?;
            }
        }
        Ok(())
    }
}
