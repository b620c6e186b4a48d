//! The tests, lock by lock, and those of what stands beside a lock.
mod clh;
mod hemlock;
mod mcs;
mod ticket;
mod tokens;
mod trails;
