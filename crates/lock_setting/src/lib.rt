//! What a composed lock is made of, by texts: a description of a machine, the levels, kinds and keeps of a plan on it, and the PUs of its
//! callers.
#![tactic(auto)]

mod fault;
mod reading;

pub use fault::SettingFault;
pub use reading::{Setting, read_setting};
