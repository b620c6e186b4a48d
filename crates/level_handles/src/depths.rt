//! A caller of a composed lock of each depth, under a name of its own, so that what is said of a caller of any depth names no lock.
ghost use Rattle.std.specs.Prelude.{◌≡◌};
ghost use Rattle.level_callers.specs.Goes.{Acts};

use level_callers::{Call, Caller, Reply};
use lock_depths::{LockOfFour, LockOfThree, LockOfTwo};
use lock_levels::{LevelOver, LockKind, TopOf};
use own_payload::Noted;
use std::marker::{Model, PhantomData};

/// A lock of one level.
pub(crate) type FirstLock = TopOf<Noted<()>>;

/// A lock of two levels.
pub(crate) type SecondLock = LevelOver<Noted<()>, FirstLock>;

/// A lock of three levels.
pub(crate) type ThirdLock = LevelOver<Noted<()>, LockOfTwo>;

/// A lock of four levels.
pub(crate) type FourthLock = LevelOver<Noted<()>, LockOfThree>;

/// A lock of five levels.
pub(crate) type FifthLock = LevelOver<Noted<()>, LockOfFour>;

/// A caller of a lock of one level.
#[derive(Drop)]
pub struct OneLevel {
    caller: Caller<FirstLock>,
    kinds: PhantomData<LockKind>,
}

impl Model for OneLevel {
    ghost use Rattle.level_callers.specs.Seen.{Seen, seen_code};

    ghost Value = { Seen };

    ghost coded = { seen_code };

    ghost view = { λ c. c.caller };

    ghost invariant = { λ _. Unit {0} };
}

impl OneLevel {
    /// This caller.
    pub(crate) fn of(caller: Caller<FirstLock>) -> OneLevel
        ensures same { result ≡ caller }
    {
        OneLevel {
            caller,
            kinds: PhantomData,
        }
    }

    /// Does a call.
    pub(crate) fn act(&mut self, call: Call) -> Reply
        ensures acts { Acts call self.old self.new result }
    {
        self.caller.act(call)
    }
}

/// A caller of a lock of two levels.
#[derive(Drop)]
pub struct TwoLevels {
    caller: Caller<SecondLock>,
    kinds: PhantomData<LockKind>,
}

impl Model for TwoLevels {
    ghost use Rattle.level_callers.specs.Seen.{Seen, seen_code};

    ghost Value = { Seen };

    ghost coded = { seen_code };

    ghost view = { λ c. c.caller };

    ghost invariant = { λ _. Unit {0} };
}

impl TwoLevels {
    /// This caller.
    pub(crate) fn of(caller: Caller<SecondLock>) -> TwoLevels
        ensures same { result ≡ caller }
    {
        TwoLevels {
            caller,
            kinds: PhantomData,
        }
    }

    /// Does a call.
    pub(crate) fn act(&mut self, call: Call) -> Reply
        ensures acts { Acts call self.old self.new result }
    {
        self.caller.act(call)
    }
}

/// A caller of a lock of three levels.
#[derive(Drop)]
pub struct ThreeLevels {
    caller: Caller<ThirdLock>,
    kinds: PhantomData<LockKind>,
}

impl Model for ThreeLevels {
    ghost use Rattle.level_callers.specs.Seen.{Seen, seen_code};

    ghost Value = { Seen };

    ghost coded = { seen_code };

    ghost view = { λ c. c.caller };

    ghost invariant = { λ _. Unit {0} };
}

impl ThreeLevels {
    /// This caller.
    pub(crate) fn of(caller: Caller<ThirdLock>) -> ThreeLevels
        ensures same { result ≡ caller }
    {
        ThreeLevels {
            caller,
            kinds: PhantomData,
        }
    }

    /// Does a call.
    pub(crate) fn act(&mut self, call: Call) -> Reply
        ensures acts { Acts call self.old self.new result }
    {
        self.caller.act(call)
    }
}

/// A caller of a lock of four levels.
#[derive(Drop)]
pub struct FourLevels {
    caller: Caller<FourthLock>,
    kinds: PhantomData<LockKind>,
}

impl Model for FourLevels {
    ghost use Rattle.level_callers.specs.Seen.{Seen, seen_code};

    ghost Value = { Seen };

    ghost coded = { seen_code };

    ghost view = { λ c. c.caller };

    ghost invariant = { λ _. Unit {0} };
}

impl FourLevels {
    /// This caller.
    pub(crate) fn of(caller: Caller<FourthLock>) -> FourLevels
        ensures same { result ≡ caller }
    {
        FourLevels {
            caller,
            kinds: PhantomData,
        }
    }

    /// Does a call.
    pub(crate) fn act(&mut self, call: Call) -> Reply
        ensures acts { Acts call self.old self.new result }
    {
        self.caller.act(call)
    }
}

/// A caller of a lock of five levels.
#[derive(Drop)]
pub struct FiveLevels {
    caller: Caller<FifthLock>,
    kinds: PhantomData<LockKind>,
}

impl Model for FiveLevels {
    ghost use Rattle.level_callers.specs.Seen.{Seen, seen_code};

    ghost Value = { Seen };

    ghost coded = { seen_code };

    ghost view = { λ c. c.caller };

    ghost invariant = { λ _. Unit {0} };
}

impl FiveLevels {
    /// This caller.
    pub(crate) fn of(caller: Caller<FifthLock>) -> FiveLevels
        ensures same { result ≡ caller }
    {
        FiveLevels {
            caller,
            kinds: PhantomData,
        }
    }

    /// Does a call.
    pub(crate) fn act(&mut self, call: Call) -> Reply
        ensures acts { Acts call self.old self.new result }
    {
        self.caller.act(call)
    }
}
