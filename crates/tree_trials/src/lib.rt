//! Tests of the locks of `lock_levels`, of runs on a value of one's own under them, and of callers that threads share. They stand in a
//! crate of their own, so that the harness, the locks and these runs are proved once.
#![tactic(auto)]

#[cfg(test)]
mod tests;
