//! Tests of what is chosen, planned and shared out on a topology, worked out by hand or by programs outside. They stand in a crate of their
//! own, so that `lock_select`, `lock_plan` and `distrib_rules` are proved once.
#![tactic(auto)]

#[cfg(test)]
mod tests;
