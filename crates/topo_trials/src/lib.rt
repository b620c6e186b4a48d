//! Tests of topologies, of locations and of answers about them, with those of lstopo and hwloc-calc. They stand in a crate of their own, so
//! that `topo_tree`, `calc_query` and `calc_text` are proved once.
#![tactic(auto)]

#[cfg(test)]
mod tests;
