//! Tests of sections, places and the printed text of a run, of the check of such a text, and of runs by the program's top call. They stand
//! in a crate of their own, so that `placed_runner`, `run_check` and `clof_tool` are proved once.
#![tactic(auto)]

#[cfg(test)]
mod tests;
