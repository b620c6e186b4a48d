//! Which locks the levels of a composed lock are: the layers of a topology, the kind of lock of each, and how long each keeps the lock
//! above; and the shape of such a lock, whose callers stand on PUs.
#![tactic(auto)]

mod keeps;
mod kind;
mod laws;
mod levels;
mod lists;
mod locks;
mod nodes;
mod plan;

pub use kind::LockKind;
pub use laws::{one_answer, one_level_is_one_node, plans_are_for_their_topology, shapes_are_trees};
pub use plan::Plan;
pub use run_faults::PlanFault;
