//! What a lock of several levels asks of the payload of its root.
ghost use Rattle.std.specs.Prelude.{ℕ, List};
ghost use Rattle.lock_rules.specs.Tag.{Tag};

/// What the callers of a lock work on while they hold it.
///
/// `calls` are the callers of the calls made so far, in order, and `tag` is plain data that never changes.
pub trait Payload: Drop {
    ghost calls: { Self → List ℕ };

    ghost tag: { Self → Tag };
}
