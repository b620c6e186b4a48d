//! What tells the tag of all jobs.
ghost use Rattle.lock_rules.specs.Tag.{Tag};

/// What tells the one tag that all jobs of a hall have. It is there for the clauses alone.
pub trait Tells {
    ghost told: { Self → Tag };
}
