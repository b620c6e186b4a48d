//! What the callers of a lock do.
ghost use Rattle.std.specs.Prelude.{ℕ, IfNone};

/// What each caller of a run does, again and again: outside the lock it takes its next task, in a hold it applies the task to the value,
/// and outside the lock it tells of the answer.
pub trait Serves<T> {
    type Task: Drop;

    type Answer;

    // It may be asked for this caller.
    ghost may: { Self → ℕ → Type 0 };

    // It may have no further task for this caller.
    ghost stops: { Self → ℕ → Type 0 };

    /// The next task of a caller, or `None` where the caller stops.
    fn next(&self, caller: u32) -> Option<Self::Task>
        requires { may self.now caller }
        ensures { IfNone result (stops self.now caller) };

    /// Applies a task of a caller, which holds the lock meanwhile.
    fn apply(&self, value: &mut T, caller: u32, task: Self::Task) -> Self::Answer
        requires { may self.now caller };

    /// Tells a caller's answer, behind its hold.
    fn tell(&self, caller: u32, answer: Self::Answer)
        requires { may self.now caller };
}

/// The same work in each hold, as often as a caller's share allows.
#[derive(Drop)]
pub struct Always<'w, F> {
    pub work: &'w F,
}

impl<'w, T, F: Fn(&mut T, u32)> Serves<T> for Always<'w, F> {
    type Task = ();

    type Answer = ();

    ghost may = { λ s _. F.IsAlwaysCallable s.work.now };

    ghost stops = { λ _ _. ⊥ };

    fn next(&self, _caller: u32) -> Option<()> {
        Some(())
    }

    fn apply(&self, value: &mut T, caller: u32, _task: ()) {
        (self.work)(value, caller);
    }

    fn tell(&self, _caller: u32, _answer: ()) {}
}
