//! The tree of objects that a synthetic description stands for: Machine, one depth below it for each level, and the
//! nodes of memory; each object with its set of PUs, its numbers, its parent and its children; and the tree's two texts.
#![tactic(auto)]

mod as_tree;
mod building;
mod counts;
mod fault;
mod laws;
mod layer;
mod lines;
mod look_ups;
mod naming;
mod numbers;
mod order;
mod sets;
mod show;
mod sizes;
mod topology;
mod tree;

pub use as_tree::AsTree;
pub use fault::BuildFault;
pub use laws::{
    children_have_their_parent, children_make_up_their_parent, common_objects_nest_upwards,
    inside_is_by_positions, numbers_name_their_pus, objects_have_their_share,
    objects_of_a_depth_are_disjoint, objects_over_pus_cover_them,
};
pub use layer::{Layer, MACHINE, Object, Row};
pub use topology::Topology;
pub use tree::Tree;
