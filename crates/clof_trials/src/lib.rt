//! Tests of the program's top call: its commands, their words and inputs, how they are refused, checks, receipts, the drill and limits, and
//! its streams; and of its process. They stand in a crate of their own, so that `clof_tool` is proved once. Runs of callers with sections
//! are in `runner_trials`.
#![tactic(auto)]

#[cfg(test)]
mod tests;
