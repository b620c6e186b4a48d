//! The locks for C: callers of a Ticket, MCS, CLH or Hemlock lock, and of composed locks of them, as functions that a C program may call in
//! any order.
//!
//! No export has a `requires` but that a handle is one: zero, or what these functions left in it. A wrong order of calls is answered by a
//! code, and nothing changes. `c/include/clof.h` declares them.
#![tactic(auto)]

mod calls;
mod codes;
mod composed;
mod composed_codes;
mod composed_making;
#[cfg(test)]
mod composed_tests;
mod making;
#[cfg(test)]
mod tests;
