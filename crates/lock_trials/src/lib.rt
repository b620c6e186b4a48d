//! Tests of the four basic locks, and of the records that stand beside a lock: the trail of its turns, and the counted history of its
//! payload. They stand in a crate of their own, so that each of these is proved once and no lock carries a harness.
#![tactic(auto)]

#[cfg(test)]
mod tests;
