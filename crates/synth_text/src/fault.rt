//! Why a text describes nothing.

ghost use Rattle.std.specs.Prelude.{◌≡◌};
ghost use Rattle.synth_text.specs.declared.fault.SynthFault.TheVariants as faults;
ghost use Rattle.synth_text.specs.declared.fault.Unread.TheVariants as unread;

use std::alloc::{AllocError, AllocFailed};
use thiserror::Error;

/// Why a text is no description: the first broken rule. Rules 2 to 5 go first, by the items from the left and in this
/// order within one; then 1, 7, 6, 8 and 9. Each place is the offset at which the item begins.
#[derive(Clone, Copy, Debug, PartialEq, Eq, Error)]
pub enum SynthFault {
    /// 1. There is no level.
    #[error("no level")]
    Empty,
    /// 2. A level's name is unknown or `machine`, or a bracket isn't closed or doesn't begin with a name of NUMANode.
    #[error("unknown type at {at}")]
    BadType { at: usize },
    /// 3. An arity isn't a decimal number from 1 to 4,294,967,295.
    #[error("bad arity at {at}")]
    BadArity { at: usize },
    /// 4. Parentheses are empty, not closed or not last, or a key, a size or its place is wrong.
    #[error("bad attribute at {at}")]
    BadAttr { at: usize },
    /// 5. The value of `indexes` is neither a list nor loops.
    #[error("bad indexes at {at}")]
    BadIndexes { at: usize },
    /// 6. The last level isn't of PUs, or memory stands behind it.
    #[error("the last level is not PU, at {at}")]
    LastNotPu { at: usize },
    /// 7. A kind other than Group comes twice, or a second memory is attached.
    #[error("repeated type at {at}")]
    RepeatedType { at: usize },
    /// 8. There are more than 16 levels.
    #[error("too many levels")]
    TooManyLevels,
    /// 9. There are more than 4,096 PUs, or more than 16,384 objects with Machine and the nodes of memory.
    #[error("too many objects")]
    TooManyObjects,
    /// Memory ran out.
    #[error("out of memory")]
    OutOfMemory,
}

impl From<AllocError> for SynthFault {
    ghost from_gives = { λ _ e. e ≡ faults.OutOfMemory };

    fn from(_refused: AllocError) -> SynthFault {
        SynthFault::OutOfMemory
    }
}

impl<T: Drop> From<AllocFailed<T>> for SynthFault {
    ghost from_gives = { λ _ e. e ≡ faults.OutOfMemory };

    fn from(_refused: AllocFailed<T>) -> SynthFault {
        SynthFault::OutOfMemory
    }
}

/// The nine rules of a text, some with the place where it breaks them. A `SynthFault` tells of one, or of want of memory.
#[derive(Clone, Copy, Debug, PartialEq, Eq)]
pub enum SynthRule {
    /// 1. There is a level.
    Empty,
    /// 2. Each name is known, and each bracket is closed.
    BadType { at: usize },
    /// 3. Each arity is a number from 1.
    BadArity { at: usize },
    /// 4. Attributes are well formed, and where they may be.
    BadAttr { at: usize },
    /// 5. Indexes are a list or loops.
    BadIndexes { at: usize },
    /// 6. The last level is of PUs, with no memory behind it.
    LastNotPu { at: usize },
    /// 7. No kind but Group comes twice, and one memory is attached at most.
    RepeatedType { at: usize },
    /// 8. There are 16 levels at most.
    TooManyLevels,
    /// 9. There are 4,096 PUs and 16,384 objects at most.
    TooManyObjects,
}

impl SynthRule {
    ghost use Rattle.std.specs.Prelude.{◌≡◌};
    ghost use Rattle.synth_text.specs.Faults.{fault_of};

    /// The fault that tells of the rule.
    pub fn fault(self) -> SynthFault
        ensures { result ≡ fault_of self }
    {
        match self {
            SynthRule::Empty => SynthFault::Empty,
            SynthRule::BadType { at } => SynthFault::BadType { at },
            SynthRule::BadArity { at } => SynthFault::BadArity { at },
            SynthRule::BadAttr { at } => SynthFault::BadAttr { at },
            SynthRule::BadIndexes { at } => SynthFault::BadIndexes { at },
            SynthRule::LastNotPu { at } => SynthFault::LastNotPu { at },
            SynthRule::RepeatedType { at } => SynthFault::RepeatedType { at },
            SynthRule::TooManyLevels => SynthFault::TooManyLevels,
            SynthRule::TooManyObjects => SynthFault::TooManyObjects,
        }
    }
}

/// What is wrong with an item, apart from its place.
#[derive(Clone, Copy, Debug, PartialEq, Eq)]
pub enum Flaw {
    /// The name of its kind.
    Name,
    /// Its arity.
    Arity,
    /// Its parentheses, a key, a size or the place of one.
    Attribute,
    /// The value of `indexes`.
    Indexes,
}

impl Flaw {
    ghost use Rattle.std.specs.Prelude.{◌≡◌};
    ghost use Rattle.synth_text.specs.Flaws.{rule_at};

    /// The rule that an item breaks that begins at an offset.
    pub fn at(self, at: usize) -> SynthRule
        ensures { result ≡ rule_at at self }
    {
        match self {
            Flaw::Name => SynthRule::BadType { at },
            Flaw::Arity => SynthRule::BadArity { at },
            Flaw::Attribute => SynthRule::BadAttr { at },
            Flaw::Indexes => SynthRule::BadIndexes { at },
        }
    }
}

/// Why a reading gave nothing.
#[derive(Clone, Copy, Debug, PartialEq, Eq)]
pub enum Unread<F> {
    /// The text is at fault.
    Fault(F),
    /// Memory was refused.
    OutOfMemory,
}

impl From<Flaw> for Unread<Flaw> {
    ghost from_gives = { λ flaw e. e ≡ unread.Fault flaw };

    fn from(flaw: Flaw) -> Unread<Flaw> {
        Unread::Fault(flaw)
    }
}

impl From<SynthRule> for Unread<SynthRule> {
    ghost from_gives = { λ rule e. e ≡ unread.Fault rule };

    fn from(rule: SynthRule) -> Unread<SynthRule> {
        Unread::Fault(rule)
    }
}

impl<F> From<AllocError> for Unread<F> {
    ghost from_gives = { λ _ e. e ≡ unread.OutOfMemory };

    fn from(_refused: AllocError) -> Unread<F> {
        Unread::OutOfMemory
    }
}

impl<F, T: Drop> From<AllocFailed<T>> for Unread<F> {
    ghost from_gives = { λ _ e. e ≡ unread.OutOfMemory };

    fn from(_refused: AllocFailed<T>) -> Unread<F> {
        Unread::OutOfMemory
    }
}
