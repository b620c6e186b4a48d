//! Who is told how callers come to hold a lock.

/// Is told when a caller is queued for the lock and when it holds it, by the caller itself. Tests have callers wait there; the
/// program's callers go through `OpenGate`. A run on threads asks that its gate is `Sync`, since all callers share it.
pub trait Gate {
    /// The caller with this number is queued.
    fn queued(&self, caller: u32);

    /// The caller with this number holds the lock.
    fn inside(&self, caller: u32);
}

/// A gate that does nothing.
#[derive(Clone, Copy, Debug)]
pub struct OpenGate;

impl Gate for OpenGate {
    fn queued(&self, _caller: u32) {}

    fn inside(&self, _caller: u32) {}
}
