//! Tests of what words ask for, of what the commands print and of how they are refused, with the answers of hwloc's programs. They stand in
//! a crate of their own, so that `command_words`, `command_texts` and `plan_texts` are proved once.
#![tactic(auto)]

#[cfg(test)]
mod tests;
