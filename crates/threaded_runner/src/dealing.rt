//! The jobs of all callers: made of their passes, shares and sections, and taken apart again.
ghost use Rattle.std.specs.Prelude.{◌≡◌, ◌<◌, ◌≤◌, ℕ, [], false, length, map, slice_get, Some, vec_capacity};
ghost use Rattle.lock_rules.specs.Trees.{lists_in};
ghost use Rattle.clof_compose.specs.Courses.{course_of};
ghost use Rattle.clof_compose.specs.Passes.{IsNumber};
ghost use Rattle.clof_compose.specs.Shares.{IsShareIn};
ghost use Rattle.mc_text.specs.Commands.{commands_left};
ghost use Rattle.mc_text.specs.Reading.{commands_of};
ghost use Rattle.threaded_runner.specs.Jobs.{IsJob};

use crate::book::Book;
use crate::job::Job;
use clof_compose::{Composed, Resting};
use keep_local::Share;
use mc_text::Commands;
use run_texts::Section;

/// A job for each pass, each share and each section, in order, and the emptied lists of the passes and of the shares.
pub(crate) fn deal<'a, C: Composed<Book<'a>>>(
    _lock: &C,
    mut passes: Vec<C::Pass>,
    mut shares: Vec<Share>,
    sections: &[Section<'a>],
    mut jobs: Vec<Job<'a, C::Pass>>,
) -> (Vec<Job<'a, C::Pass>>, Vec<C::Pass>, Vec<Share>)
    requires passes { (k : ℕ) (p : C.Pass) → slice_get passes.items k ≡ Some p
        → IsNumber (C.has _lock.now) (C.level _lock.now) (C.tag _lock.now) k (C.Pass.rest p).context }
    requires shares { (k : ℕ) (s : _) → slice_get shares.items k ≡ Some s → IsShareIn (course_of (C.tag _lock.now)) k s × (s.made ≡ 0) }
    requires many { length shares.items ≡ length passes.items }
    requires all { length sections.now ≡ length passes.items }
    requires sections { lists_in (course_of (C.tag _lock.now)).payload ≡ map (λ section. section.bytes.now) sections.now }
    requires quotas { (course_of (C.tag _lock.now)).quotas ≡ map (λ section. length (commands_of section.bytes.now)) sections.now }
    requires empty { jobs.items ≡ [] }
    requires room { length passes.items ≤ vec_capacity jobs }
    ensures each { (k : ℕ) (j : _) → slice_get result.0.items k ≡ Some j → IsJob C.Pass.rest (C.has _lock.now) (C.level _lock.now)
        (C.tag _lock.now) k j }
    ensures many { length result.0.items ≡ length passes.items }
    ensures passes_empty { result.1.items ≡ [] }
    ensures passes_room { vec_capacity result.1 ≡ vec_capacity passes }
    ensures shares_empty { result.2.items ≡ [] }
    ensures shares_room { vec_capacity result.2 ≡ vec_capacity shares }
{
    while let Some(pass) = passes.pop() {
        let Some(share) = shares.pop() else {
            unreachable!()
        };
        let bytes = bytes_at(sections, passes.len());
        jobs.push_reserved(job_of(pass, share, bytes));
    }
    jobs.reverse();
    (jobs, passes, shares)
}

// The bytes of the section with this number.
fn bytes_at<'a>(sections: &[Section<'a>], number: usize) -> &'a [u8]
    requires { number < length sections.now }
    ensures { slice_get (map (λ section. section.bytes.now) sections.now) number ≡ Some result.now }
{
    sections[number].bytes
}

// A caller's job: all commands of a section with these bytes.
fn job_of<'a, Q>(pass: Q, share: Share, bytes: &'a [u8]) -> Job<'a, Q>
    ensures pass { result.pass ≡ pass }
    ensures share { result.share ≡ share }
    ensures commands { commands_left result.commands ≡ commands_of bytes.now }
    ensures stopped { result.stopped ≡ false }
{
    Job {
        pass,
        share,
        commands: Commands::new(bytes),
        stopped: false,
    }
}

/// The passes and the shares of jobs, in order, in empty lists that have room for them.
pub(crate) fn take_apart<'a, Q: Drop>(
    mut jobs: Vec<Job<'a, Q>>,
    mut passes: Vec<Q>,
    mut shares: Vec<Share>,
) -> (Vec<Q>, Vec<Share>)
    requires passes_empty { passes.items ≡ [] }
    requires passes_room { length jobs.items ≤ vec_capacity passes }
    requires shares_empty { shares.items ≡ [] }
    requires shares_room { length jobs.items ≤ vec_capacity shares }
    ensures passes { result.0.items ≡ map (λ job. job.pass) jobs.entry.items }
    ensures shares { result.1.items ≡ map (λ job. job.share) jobs.entry.items }
{
    while let Some(job) = jobs.pop() {
        let Job { pass, share, .. } = job;
        passes.push_reserved(pass);
        shares.push_reserved(share);
    }
    passes.reverse();
    shares.reverse();
    (passes, shares)
}

/// Of each job whether its caller stopped, in order, in an empty list that has room for them.
pub(crate) fn stops<Q>(jobs: &[Job<'_, Q>], mut stopped: Vec<bool>) -> Vec<bool>
    requires empty { stopped.items ≡ [] }
    requires room { length jobs.now ≤ vec_capacity stopped }
    ensures { result.items ≡ map (λ job. job.stopped) jobs.now }
{
    for job in jobs {
        stopped.push_reserved(job.stopped);
    }
    stopped
}
