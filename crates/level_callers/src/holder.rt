//! A holder that may release.
ghost use Rattle.std.specs.Prelude.{◌≡◌, ◌∷◌, [], ◌++◌, IsSomeAnd};
ghost use Rattle.lock_rules.specs.Tag.{leaf};
ghost use Rattle.clof_compose.specs.Calls.{HasOpened, MayRelease};
ghost use Rattle.clof_compose.specs.Contexts.{IsContextOf};
ghost use Rattle.clof_compose.specs.Courses.{course_of};
ghost use Rattle.clof_compose.specs.Roots.{payload_of, trail_of};

use clof_compose::{Composed, Root, Standing};
use keep_local::Share;
use own_payload::Noted;

// Notes the holder's call.
fn call(root: &mut Root<Noted<()>>, caller: u32)
    ensures trail { trail_of root.new ≡ trail_of root.old }
    ensures noted { (payload_of root.new).calls.callers ≡ (payload_of root.old).calls.callers ++ caller ∷ [] }
{
    root.payload_mut().note(caller);
}

/// The holder, with its call noted, so that it may release.
pub(crate) fn noted<C: Composed<Noted<()>>>(_lock: &C, mut held: C::Held, share: &Share) -> C::Held
    requires lowest { C.level _lock.now ≡ 0 }
    requires stands { C.Held.stands held }
    requires opened { IsSomeAnd (C.Held.stand held).root (HasOpened (λ n. n.calls.callers) (λ _. leaf 0) (C.tag _lock.now)
        (C.level _lock.now) share.now) }
    requires context { IsContextOf (course_of (C.tag _lock.now)).shape 0 share.now.caller (C.Held.stand held).context.number }
    ensures context { (C.Held.stand result).context ≡ (C.Held.stand held).context }
    ensures loads { (C.Held.stand result).loads ≡ (C.Held.stand held).loads }
    ensures stands { C.Held.stands result }
    ensures root { IsSomeAnd (C.Held.stand result).root (MayRelease (λ n. n.calls.callers) (λ _. leaf 0) (C.tag _lock.now)
        (C.level _lock.now) (C.Held.stand result).context.number) }
{
    call(held.root(), share.caller());
    held
}
