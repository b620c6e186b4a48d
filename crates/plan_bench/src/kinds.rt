//! The kinds of a plan's levels.
use lock_levels::LockKind;
use std::alloc::Global;

/// The kinds that `tkt`, `mcs`, `clh` and `hem` joined by dashes name. The answer is `None` for want of memory, and where a word names no
/// kind.
pub(crate) fn read_kinds(alloc: Global, words: &str) -> Option<Vec<LockKind>> {
    let mut kinds = Vec::new(alloc);
    for word in words.split('-') {
        kinds.push(kind_named(word)?).ok()?;
    }
    Some(kinds)
}

// The kind that a word names.
fn kind_named(word: &str) -> Option<LockKind> {
    match word {
        "tkt" => Some(LockKind::Tkt),
        "mcs" => Some(LockKind::Mcs),
        "clh" => Some(LockKind::Clh),
        "hem" => Some(LockKind::Hem),
        "tktc" => Some(LockKind::TktC),
        "mcsc" => Some(LockKind::McsC),
        "clhc" => Some(LockKind::ClhC),
        "hemc" => Some(LockKind::HemC),
        _ => None,
    }
}
