//! Tests of commands, of the store and the journal, and of a drill's sums: lines and blocks, sections with their replies, items that
//! expire, values at the limit, and a journal that goes to a thread. They stand in a crate of their own, so that `mc_text`, `kv_history`
//! and `drill_text` are proved once.
#![tactic(auto)]

#[cfg(test)]
mod tests;
