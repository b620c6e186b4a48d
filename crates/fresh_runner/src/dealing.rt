//! The jobs of all callers: made of what they bring and of their sections, and taken apart again.
ghost use Rattle.std.specs.Prelude.{◌≡◌, ◌≢◌, ◌<◌, ◌≤◌, ◌++◌, ◌∷◌, ℕ, [], false, length, map, slice_get, Some, vec_capacity, IfOk};
ghost use Rattle.lock_rules.specs.Trees.{lists_in};
ghost use Rattle.clof_compose.specs.Courses.{course_of};
ghost use Rattle.mc_text.specs.Commands.{commands_left};
ghost use Rattle.mc_text.specs.Reading.{commands_of};
ghost use Rattle.fresh_runner.specs.Books.{book_in};
ghost use Rattle.fresh_runner.specs.Crews.{AreEmptied, AreLists};
ghost use Rattle.fresh_runner.specs.Jobs.{IsBlank, IsFreshJob};

use crate::account::{Account, Marks};
use crate::book::FreshBook;
use crate::job::FreshJob;
use crate::lists::Lists;
use clof_compose::{Composed, Resting};
use keep_local::Share;
use mc_text::Commands;
use run_texts::Section;
use std::alloc::{AllocError, Global};

/// Of each share empty marks with room for all turns of its caller.
pub(crate) fn marks_for(alloc: Global, shares: &[Share]) -> Result<Vec<Marks>, AllocError>
    ensures many { IfOk result (λ marks. length marks.items ≡ length shares.now) }
    ensures each { IfOk result (λ marks. (k : ℕ) (s : _) (m : _) → slice_get shares.now k ≡ Some s → slice_get marks.items k ≡ Some m
        → IsBlank s.quota m) }
{
    let mut marks = Vec::with_capacity(alloc, shares.len())?;
    for share in shares {
        let turns = Vec::with_capacity(alloc, share.turns_allowed() as usize)?;
        marks.push_reserved(Marks { turns });
    }
    Ok(marks)
}

/// A job for each caller and its section, in order, and the emptied lists of what the callers brought.
pub(crate) fn deal<'a, C: Composed<FreshBook<'a>>>(
    _lock: &C,
    mut lists: Lists<C::Pass>,
    sections: &[Section<'a>],
    mut jobs: Vec<FreshJob<'a, C::Pass>>,
) -> (Vec<FreshJob<'a, C::Pass>>, Lists<C::Pass>)
    requires lists { AreLists C.Pass.rest (C.has _lock.now) (C.level _lock.now) (C.tag _lock.now) (length sections.now) lists }
    requires sections { lists_in (book_in (course_of (C.tag _lock.now)).payload) ≡ map (λ section. section.bytes.now) sections.now }
    requires quotas { (course_of (C.tag _lock.now)).quotas ≡ map (λ section. length (commands_of section.bytes.now)) sections.now }
    requires empty { jobs.items ≡ [] }
    requires room { length sections.now ≤ vec_capacity jobs }
    ensures each { (k : ℕ) (j : _) → slice_get result.0.items k ≡ Some j → IsFreshJob C.Pass.rest (C.has _lock.now) (C.level _lock.now)
        (C.tag _lock.now) k j }
    ensures many { length result.0.items ≡ length sections.now }
    ensures emptied { AreEmptied (length sections.now) result.1 }
{
    while let Some(pass) = lists.passes.pop() {
        let account = last_account(&mut lists);
        let bytes = bytes_at(sections, lists.passes.len());
        jobs.push_reserved(job_of(pass, account, bytes));
    }
    jobs.reverse();
    (jobs, lists)
}

// Takes the account of the last caller out of the lists.
fn last_account<Q>(lists: &mut Lists<Q>) -> Account
    requires shares { lists.old.shares.items ≢ [] }
    requires seens { lists.old.seens.items ≢ [] }
    requires marks { lists.old.marks.items ≢ [] }
    ensures passes { lists.new.passes ≡ lists.old.passes }
    ensures shares { lists.old.shares.items ≡ lists.new.shares.items ++ result.share ∷ [] }
    ensures shares_room { vec_capacity lists.new.shares ≡ vec_capacity lists.old.shares }
    ensures seens { lists.old.seens.items ≡ lists.new.seens.items ++ result.seen ∷ [] }
    ensures seens_room { vec_capacity lists.new.seens ≡ vec_capacity lists.old.seens }
    ensures marks { lists.old.marks.items ≡ lists.new.marks.items ++ result.marks ∷ [] }
    ensures marks_room { vec_capacity lists.new.marks ≡ vec_capacity lists.old.marks }
{
    let Some(share) = lists.shares.pop() else {
        unreachable!()
    };
    let Some(seen) = lists.seens.pop() else {
        unreachable!()
    };
    let Some(marks) = lists.marks.pop() else {
        unreachable!()
    };
    Account { share, seen, marks }
}

// The bytes of the section with this number.
fn bytes_at<'a>(sections: &[Section<'a>], number: usize) -> &'a [u8]
    requires { number < length sections.now }
    ensures { slice_get (map (λ section. section.bytes.now) sections.now) number ≡ Some result.now }
{
    sections[number].bytes
}

// A caller's job: all commands of a section with these bytes.
fn job_of<'a, Q>(pass: Q, account: Account, bytes: &'a [u8]) -> FreshJob<'a, Q>
    ensures pass { result.pass ≡ pass }
    ensures account { result.account ≡ account }
    ensures commands { commands_left result.commands ≡ commands_of bytes.now }
    ensures stopped { result.stopped ≡ false }
{
    FreshJob {
        pass,
        account,
        commands: Commands::new(bytes),
        stopped: false,
    }
}

/// What the callers of these jobs bring back, in order, in empty lists that have room for it.
pub(crate) fn take_apart<'a, Q: Drop>(mut jobs: Vec<FreshJob<'a, Q>>, lists: Lists<Q>) -> Lists<Q>
    requires { AreEmptied (length jobs.items) lists }
    ensures passes { result.passes.items ≡ map (λ job. job.pass) jobs.entry.items }
    ensures shares { result.shares.items ≡ map (λ job. job.account.share) jobs.entry.items }
    ensures seens { result.seens.items ≡ map (λ job. job.account.seen) jobs.entry.items }
    ensures marks { result.marks.items ≡ map (λ job. job.account.marks) jobs.entry.items }
{
    let mut lists = lists;
    while let Some(job) = jobs.pop() {
        put_back(&mut lists, job);
    }
    lists.passes.reverse();
    lists.shares.reverse();
    lists.seens.reverse();
    lists.marks.reverse();
    lists
}

// Puts what a caller brings back behind the others.
fn put_back<'a, Q: Drop>(lists: &mut Lists<Q>, job: FreshJob<'a, Q>)
    requires passes_room { length lists.old.passes.items < vec_capacity lists.old.passes }
    requires shares_room { length lists.old.shares.items < vec_capacity lists.old.shares }
    requires seens_room { length lists.old.seens.items < vec_capacity lists.old.seens }
    requires marks_room { length lists.old.marks.items < vec_capacity lists.old.marks }
    ensures passes { lists.new.passes.items ≡ lists.old.passes.items ++ job.entry.pass ∷ [] }
    ensures passes_room { vec_capacity lists.new.passes ≡ vec_capacity lists.old.passes }
    ensures shares { lists.new.shares.items ≡ lists.old.shares.items ++ job.entry.account.share ∷ [] }
    ensures shares_room { vec_capacity lists.new.shares ≡ vec_capacity lists.old.shares }
    ensures seens { lists.new.seens.items ≡ lists.old.seens.items ++ job.entry.account.seen ∷ [] }
    ensures seens_room { vec_capacity lists.new.seens ≡ vec_capacity lists.old.seens }
    ensures marks { lists.new.marks.items ≡ lists.old.marks.items ++ job.entry.account.marks ∷ [] }
    ensures marks_room { vec_capacity lists.new.marks ≡ vec_capacity lists.old.marks }
{
    let FreshJob { pass, account, .. } = job;
    let Account { share, seen, marks } = account;
    lists.passes.push_reserved(pass);
    lists.shares.push_reserved(share);
    lists.seens.push_reserved(seen);
    lists.marks.push_reserved(marks);
}

/// Of each job whether its caller stopped, in order, in an empty list that has room for them.
pub(crate) fn stops<Q>(jobs: &[FreshJob<'_, Q>], mut stopped: Vec<bool>) -> Vec<bool>
    requires empty { stopped.items ≡ [] }
    requires room { length jobs.now ≤ vec_capacity stopped }
    ensures { result.items ≡ map (λ job. job.stopped) jobs.now }
{
    for job in jobs {
        stopped.push_reserved(job.stopped);
    }
    stopped
}
