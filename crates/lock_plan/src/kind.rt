//! The kinds of basic locks.
ghost use Rattle.std.specs.Prelude.{◌≡◌, ◌≤◌, IfSome, length};
ghost use Rattle.lock_plan.specs.Plans.{kind_named};

/// A basic lock, and how it learns of waiters: from its queue, or, where the name ends in `c`, from a count of those who have begun and not
/// yet taken.
#[derive(Debug, Clone, Copy, PartialEq, Eq, Drop)]
pub enum LockKind {
    /// A ticket lock, by name `tkt`.
    Tkt,
    /// The queue lock of Mellor-Crummey and Scott, by name `mcs`.
    Mcs,
    /// The queue lock of Craig, Landin and Hagersten, by name `clh`.
    Clh,
    /// Hemlock, by name `hem`.
    Hem,
    /// A ticket lock that counts, by name `tktc`.
    TktC,
    /// The lock of Mellor-Crummey and Scott that counts, by name `mcsc`.
    McsC,
    /// The lock of Craig, Landin and Hagersten that counts, by name `clhc`.
    ClhC,
    /// Hemlock that counts, by name `hemc`.
    HemC,
}

/// The kind that a word names.
#[tactic(auto, unfolding(crate::specs::Plans::kind_named))]
pub(crate) fn kind_named(word: &[u8]) -> Option<LockKind>
    ensures { result ≡ kind_named word.now }
{
    if word == b"tkt".as_slice() {
        Some(LockKind::Tkt)
    } else if word == b"mcs".as_slice() {
        Some(LockKind::Mcs)
    } else if word == b"clh".as_slice() {
        Some(LockKind::Clh)
    } else if word == b"hem".as_slice() {
        Some(LockKind::Hem)
    } else if word == b"tktc".as_slice() {
        Some(LockKind::TktC)
    } else if word == b"mcsc".as_slice() {
        Some(LockKind::McsC)
    } else if word == b"clhc".as_slice() {
        Some(LockKind::ClhC)
    } else if word == b"hemc".as_slice() {
        Some(LockKind::HemC)
    } else {
        None
    }
}
