//! What a caller does under the lock.
ghost use Rattle.std.specs.Prelude.{◌≡◌, ◌+◌, ◌<◌, ◌^◌, ◌++◌, ◌∷◌, [], length, vec_capacity, IsSome};
ghost use Rattle.lock_rules.specs.Trees.{lists_in};
ghost use Rattle.clof_compose.specs.Calls.{MayTurn};
ghost use Rattle.clof_compose.specs.Courses.{course_of};
ghost use Rattle.clof_compose.specs.Passes.{IsNumber};
ghost use Rattle.clof_compose.specs.Roots.{payload_of, trail_of};
ghost use Rattle.fresh_root.specs.Prefixes.{IsPrefixOf};
ghost use Rattle.fresh_root.specs.States.{fresh_tag};
ghost use Rattle.kv_history.specs.Log.{IsNext};
ghost use Rattle.mc_text.specs.Commands.{commands_left};
ghost use Rattle.mc_text.specs.Request.{view};
ghost use Rattle.threaded_runner.specs.Jobs.{HasLeft, IsCommandAt};
ghost use Rattle.fresh_runner.specs.Books.{book_in, fresh_book_calls, fresh_book_tag};
ghost use Rattle.fresh_runner.specs.Jobs.{IsAccount, IsFreshJob, IsFreshServed};

use crate::account::Account;
use crate::book::FreshBook;
use crate::job::FreshJob;
use crate::waiting::acquire;
use clof_compose::{Composed, Resting, Root, Standing, Waits};
use fresh_root::Fresh;
use mc_text::{Command, Commands};
use run_texts::Gate;
use std::sync::Wait;
use threaded_runner::Book;

/// Holds the lock once for each command that a caller has left: its token is shown all calls so far, the command is applied to the journal
/// at the root, and the caller gets the number of its turn. The caller stops before its commands end where one was refused, which is for
/// want of memory.
pub fn serve_fresh<'a, C: Waits<FreshBook<'a>>, G: Gate, R: Wait>(
    rt: &R,
    lock: &C,
    gate: &G,
    job: FreshJob<'a, C::Pass>,
) -> FreshJob<'a, C::Pass>
    requires sound { C.sound lock.now }
    requires lowest { C.level lock.now ≡ 0 }
    requires job { IsFreshJob C.Pass.rest (C.has lock.now) (C.level lock.now) (C.tag lock.now) job.account.share.caller job }
    ensures served { IsFreshServed C.Pass.rest (C.has lock.now) (C.level lock.now) (C.tag lock.now) job.entry.account.share.caller result }
{
    let mut job = job;
    for _ in job.account.share.turns_made()..job.account.share.turns_allowed() {
        job = give_next(rt, lock, gate, job);
        if job.stopped {
            return job;
        }
    }
    job
}

// Holds the lock for the next command of a caller that has one left. The caller stops where it was refused.
fn give_next<'a, C: Waits<FreshBook<'a>>, G: Gate, R: Wait>(
    rt: &R,
    lock: &C,
    gate: &G,
    job: FreshJob<'a, C::Pass>,
) -> FreshJob<'a, C::Pass>
    requires sound { C.sound lock.now }
    requires lowest { C.level lock.now ≡ 0 }
    requires job { IsFreshJob C.Pass.rest (C.has lock.now) (C.level lock.now) (C.tag lock.now) job.account.share.caller job }
    requires some { job.account.share.made < job.account.share.quota }
    ensures job { IsFreshJob C.Pass.rest (C.has lock.now) (C.level lock.now) (C.tag lock.now) job.entry.account.share.caller result }
    ensures share { result.account.share ≡ record job.entry.account.share { made = job.entry.account.share.made + 1 } }
{
    let FreshJob {
        pass,
        mut account,
        mut commands,
        ..
    } = job;
    let command = take_next(lock, &pass, &account, &mut commands);
    let (pass, stopped) = hold(rt, lock, gate, pass, &mut account, command);
    FreshJob {
        pass,
        account,
        commands,
        stopped,
    }
}

// The next command of a caller that has one left, which it may hold the lock for.
fn take_next<'a, C: Composed<FreshBook<'a>>>(
    _lock: &C,
    _pass: &C::Pass,
    _account: &Account,
    commands: &mut Commands<'a>,
) -> Command<'a>
    requires lowest { C.level _lock.now ≡ 0 }
    requires pass { IsNumber (C.has _lock.now) (C.level _lock.now) (C.tag _lock.now) _account.now.share.caller
        (C.Pass.rest _pass.now).context }
    requires account { IsAccount (course_of (C.tag _lock.now)) _account.now.share.caller _account.now }
    requires left { HasLeft (book_in (course_of (C.tag _lock.now)).payload) _account.now.share (commands_left commands.old) }
    requires some { _account.now.share.made < _account.now.share.quota }
    ensures share { MayTurn (course_of (C.tag _lock.now)) (C.level _lock.now) (C.Pass.rest _pass.now).context.number _account.now.share }
    ensures next { IsCommandAt (book_in (course_of (C.tag _lock.now)).payload) _account.now.share.caller _account.now.share.made
        (view result) }
    ensures left { HasLeft (book_in (course_of (C.tag _lock.now)).payload)
        (record _account.now.share { made = _account.now.share.made + 1 }) (commands_left commands.new) }
{
    let Some(command) = commands.next() else {
        unreachable!()
    };
    command
}

// Holds the lock once and applies a command. The answer has the pass, and whether the command was refused.
fn hold<'a, C: Waits<FreshBook<'a>>, G: Gate, R: Wait>(
    rt: &R,
    lock: &C,
    gate: &G,
    pass: C::Pass,
    account: &mut Account,
    command: Command<'a>,
) -> (C::Pass, bool)
    requires sound { C.sound lock.now }
    requires own { C.has lock.now (C.Pass.rest pass).context }
    requires lowest { C.level lock.now ≡ 0 }
    requires share { MayTurn (course_of (C.tag lock.now)) (C.level lock.now) (C.Pass.rest pass).context.number account.old.share }
    requires account { IsAccount (course_of (C.tag lock.now)) account.old.share.caller account.old }
    requires next { IsCommandAt (book_in (course_of (C.tag lock.now)).payload) account.old.share.caller account.old.share.made
        (view command) }
    ensures pass { (C.Pass.rest result.0).context ≡ (C.Pass.rest pass).context }
    ensures made { account.new.share ≡ record account.old.share { made = account.old.share.made + 1 } }
    ensures account { IsAccount (course_of (C.tag lock.now)) account.old.share.caller account.new }
{
    let caller = account.share.caller();
    let mut held = acquire(rt, lock, gate, pass, &mut account.share);
    gate.inside(caller);
    let refused = give(held.root(), account, command);
    (lock.release(rt, held), refused)
}

// Applies a caller's next command at a root. The answer is whether it was refused, which is for want of memory.
fn give<'a>(root: &mut Root<FreshBook<'a>>, account: &mut Account, command: Command<'a>) -> bool
    requires home { IsSome (payload_of root.old).fresh.payload }
    requires own { account.old.seen.fresh ≡ (payload_of root.old).fresh.name }
    requires caller { account.old.seen.caller ≡ account.old.share.caller }
    requires next { IsNext (lists_in (payload_of root.old).fresh.tag) (payload_of root.old).fresh.list account.old.share.caller
        (view command) }
    requires few { length (payload_of root.old).fresh.list + 1 < 2 ^ 32 }
    requires room { length account.old.marks.turns.items < vec_capacity account.old.marks.turns }
    ensures prefix { IsPrefixOf account.old.seen.list (payload_of root.old).fresh.list }
    ensures trail { trail_of root.new ≡ trail_of root.old }
    ensures tag { fresh_book_tag (payload_of root.new) ≡ fresh_book_tag (payload_of root.old) }
    ensures called { fresh_book_calls (payload_of root.new) ≡ (payload_of root.old).fresh.list ++ account.old.share.caller ∷ [] }
    ensures share { account.new.share ≡ account.old.share }
    ensures seen { account.new.seen ≡ record account.old.seen { list = (payload_of root.old).fresh.list ++ account.old.share.caller ∷ [] } }
    ensures marks { account.new.marks.turns.items ≡ account.old.marks.turns.items ++ length (payload_of root.old).fresh.list ∷ [] }
    ensures capacity { vec_capacity account.new.marks.turns ≡ vec_capacity account.old.marks.turns }
{
    note(&mut root.payload_mut().fresh, account, command)
}

// Shows the caller's token all calls so far, applies the command to the journal, and marks the turn.
fn note<'a>(fresh: &mut Fresh<Book<'a>>, account: &mut Account, command: Command<'a>) -> bool
    requires home { IsSome fresh.old.payload }
    requires own { account.old.seen.fresh ≡ fresh.old.name }
    requires caller { account.old.seen.caller ≡ account.old.share.caller }
    requires next { IsNext (lists_in fresh.old.tag) fresh.old.list account.old.share.caller (view command) }
    requires few { length fresh.old.list + 1 < 2 ^ 32 }
    requires room { length account.old.marks.turns.items < vec_capacity account.old.marks.turns }
    ensures prefix { IsPrefixOf account.old.seen.list fresh.old.list }
    ensures home { IsSome fresh.new.payload }
    ensures tag { fresh_tag fresh.new ≡ fresh_tag fresh.old }
    ensures list { fresh.new.list ≡ fresh.old.list ++ account.old.share.caller ∷ [] }
    ensures share { account.new.share ≡ account.old.share }
    ensures seen { account.new.seen ≡ record account.old.seen { list = fresh.old.list ++ account.old.share.caller ∷ [] } }
    ensures marks { account.new.marks.turns.items ≡ account.old.marks.turns.items ++ length fresh.old.list ∷ [] }
    ensures capacity { vec_capacity account.new.marks.turns ≡ vec_capacity account.old.marks.turns }
{
    let caller = account.share.caller();
    let mut book = fresh.look(&mut account.seen);
    let refused = book.journal.apply(caller, command).is_err();
    let mark = fresh.record(&mut account.seen, book);
    account.marks.turns.push_reserved(mark.turn);
    refused
}
