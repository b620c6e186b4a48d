//! The check of a printed text.

ghost use Rattle.std.specs.Prelude.{◌≡◌, ◌+◌, ◌<◌, ◌≤◌, ◌^◌, length, map, sum_by, IfOk};
ghost use Rattle.keep_local.specs.Shapes.{top_of};
ghost use Rattle.run_texts.specs.Views.{section_view};
ghost use Rattle.run_check.specs.Broken.{IsVerdict};
ghost use Rattle.run_check.specs.Runs.{IsCallersVerdict};

use crate::run::Run;
use crate::verdict::Verdict;
use keep_local::Shape;
use out_of_memory::OutOfMemory;
use run_texts::Section;
use std::alloc::Global;

/// Whether a text is the printed text of a run of these sections under a lock of this shape, or its first broken line.
pub fn check(
    alloc: Global,
    shape: &Shape,
    sections: &[Section<'_>],
    printed: &[u8],
) -> Result<Verdict, OutOfMemory>
    requires levels { top_of shape.now ≤ 32 }
    requires few { length sections.now < 2 ^ 32 }
    requires bytes { sum_by (λ section. length section.bytes.now) sections.now < 2 ^ 32 }
    requires printed { length printed.now < 2 ^ 32 }
    ensures { IfOk result (IsVerdict (map section_view sections.now) shape.now printed.now) }
{
    let mut run = Run::new(alloc, sections)?;
    let mut buffer = Vec::new(alloc);
    let mut rest = printed;
    let mut line = 0;
    while rest.starts_with(b"turn ") {
        let Some(behind) = run.make(shape, sections, rest, &mut buffer)? else {
            return Ok(Verdict::No { line });
        };
        rest = behind;
        line += 1;
    }
    run.facts();
    if !run.has_ended(shape) {
        return Ok(Verdict::No { line });
    }
    check_callers(sections, &run, rest, line, &mut buffer)
}

// Whether a text has the lines of all callers and nothing else, or the first line, counted from this number, where it hasn't.
fn check_callers<'a>(
    sections: &[Section<'a>],
    run: &Run<'a>,
    text: &[u8],
    first: u32,
    buffer: &mut Vec<u8>,
) -> Result<Verdict, OutOfMemory>
    requires same { run.now.log.sections ≡ map (λ section. section.bytes.now) sections.now }
    requires printed { first + length text.now < 2 ^ 32 }
    ensures { IfOk result (IsCallersVerdict (map section_view sections.now) text.now first) }
{
    let mut rest = text;
    let mut line = first;
    for (caller, section) in sections.iter().enumerate() {
        let Some(behind) = run.pass_caller(caller, section, rest, buffer)? else {
            return Ok(Verdict::No { line });
        };
        rest = behind;
        line += 1;
    }
    if rest.is_empty() {
        Ok(Verdict::Yes)
    } else {
        Ok(Verdict::No { line })
    }
}
