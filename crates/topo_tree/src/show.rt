//! The two texts of a tree.
ghost use Rattle.std.specs.Prelude.{◌≡◌, ◌<◌, ◌+◌, ◌++◌, ◌∷◌, [], None, length, slice_index_or, IfOk, OnOk};
ghost use Rattle.synth_text.specs.Canonical.{canonical};
ghost use Rattle.synth_text.specs.Kinds.{short_name_of};
ghost use Rattle.synth_text.specs.declared.kind.Kind.TheVariants as kinds;
ghost use Rattle.topo_tree.specs.declared.layer.Layer.TheVariants as layers;
ghost use Rattle.topo_tree.specs.Objects.{depth_count, count_at, count_of, IsObject};
ghost use Rattle.topo_tree.specs.Coverage.{physical_of};
ghost use Rattle.topo_tree.specs.Lines.{sizes, group_numbers, node_detail, line, object_line, own_lines, lines_of, topology_text};

use crate::layer::{Layer, Object};
use crate::lines::{push_detail, push_indent, push_index, push_node_detail, push_short_name};
use crate::tree::Tree;
use out_of_memory::OutOfMemory;
use std::alloc::{AllocError, Global};
use synth_text::{Kind, write};

impl Tree {
    /// The canonical text of the description, and a line end.
    pub fn export(&self, alloc: Global) -> Result<Vec<u8>, OutOfMemory>
        ensures { IfOk result (λ text. text.items ≡ canonical self.now ++ 10 ∷ []) }
    {
        let mut text = write(alloc, self.description())?;
        text.push(b'\n')?;
        Ok(text)
    }

    /// The tree of objects, one a line.
    pub fn show(&self, alloc: Global) -> Result<Vec<u8>, OutOfMemory>
        ensures { IfOk result (λ text. text.items ≡ topology_text self.now) }
    {
        let groups = self.group_numbers(alloc)?;
        let objects = self.tree_order(alloc)?;
        let mut out = Vec::new(alloc);
        for object in &objects {
            self.push_lines(&mut out, &groups, *object)?;
        }
        Ok(out)
    }

    // Appends the lines of an object of the tree.
    fn push_lines(
        &self,
        out: &mut Vec<u8>,
        groups: &[u32],
        object: Object,
    ) -> Result<(), AllocError>
        requires groups { groups.now ≡ group_numbers self.now }
        requires object { IsObject self.now object }
        ensures { OnOk result (out.new.items ≡ out.old.items ++ lines_of self.now object.layer object.index) }
    {
        match object.layer {
            Layer::Depth(depth) => self.push_own_lines(out, groups, depth, object.index),
            Layer::Memory => Ok(()),
        }
    }

    // Appends the line of an object, and of the NUMANode that it carries.
    #[tactic(auto, unfolding(crate::specs::Lines::own_lines))]
    fn push_own_lines(
        &self,
        out: &mut Vec<u8>,
        groups: &[u32],
        depth: u32,
        index: u32,
    ) -> Result<(), AllocError>
        requires groups { groups.now ≡ group_numbers self.now }
        requires depth { depth < depth_count self.now }
        requires index { index < count_at self.now depth }
        ensures { OnOk result (out.new.items ≡ out.old.items ++ own_lines self.now depth index) }
    {
        self.push_object(out, groups, depth, index)?;
        match &self.description().memory {
            Some(memory) if memory.above == depth => {
                self.push_node(out, depth + 1, index, memory.size)
            }
            _ => Ok(()),
        }
    }

    // Appends the line of an object.
    fn push_object(
        &self,
        out: &mut Vec<u8>,
        groups: &[u32],
        depth: u32,
        index: u32,
    ) -> Result<(), AllocError>
        requires groups { groups.now ≡ group_numbers self.now }
        requires depth { depth < depth_count self.now }
        requires index { index < count_at self.now depth }
        ensures { OnOk result (out.new.items ≡ out.old.items ++ object_line self.now depth index) }
    {
        let kind = self.kind(depth);
        let object = Object {
            layer: Layer::Depth(depth),
            index,
        };
        push_indent(out, depth)?;
        push_short_name(out, kind, groups[depth as usize])?;
        push_index(out, index)?;
        push_detail(out, kind, self.physical(object), self.size(depth))?;
        out.push(b'\n')?;
        Ok(())
    }

    // Appends the line of a NUMANode.
    fn push_node(
        &self,
        out: &mut Vec<u8>,
        depth: u32,
        index: u32,
        size: Option<u64>,
    ) -> Result<(), AllocError>
        requires { index < count_of self.now layers.Memory }
        ensures { OnOk result (out.new.items ≡ out.old.items
            ++ line depth (short_name_of kinds.NumaNode) index (node_detail (physical_of self.now layers.Memory index) size)) }
    {
        let object = Object {
            layer: Layer::Memory,
            index,
        };
        push_indent(out, depth)?;
        push_short_name(out, Kind::NumaNode, 0)?;
        push_index(out, index)?;
        push_node_detail(out, self.physical(object), size)?;
        out.push(b'\n')?;
        Ok(())
    }

    // For each depth, how many Group levels stand above it.
    fn group_numbers(&self, alloc: Global) -> Result<Vec<u32>, AllocError>
        ensures { IfOk result (λ numbers. numbers.items ≡ group_numbers self.now) }
    {
        let mut number = 0;
        let mut numbers = Vec::new(alloc);
        for depth in 0..self.depths() {
            numbers.push(number)?;
            if self.kind(depth).is_same(Kind::Group) {
                number += 1;
            }
        }
        Ok(numbers)
    }

    // The size that the level of a depth gives.
    fn size(&self, depth: u32) -> Option<u64>
        requires { depth < depth_count self.now }
        ensures { result ≡ slice_index_or (sizes self.now) depth None }
    {
        if depth == 0 {
            None
        } else {
            self.description().levels.as_slice()[depth as usize - 1].size
        }
    }
}
