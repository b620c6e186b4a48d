//! The text that is printed, all of it before the first write.
ghost use Rattle.std.specs.Prelude.{◌≡◌};
ghost use Rattle.command_texts.specs.declared.status.Status.{Status as AnyStatus};
ghost use Rattle.command_words.specs.Plain.{plain};
ghost use Rattle.clof_answers.specs.Outcome.{ReadsInput, WordsRefused};
ghost use Rattle.clof_answers.specs.Answered.{Answered, AnswersUnrefused};

use crate::Status;
use crate::drilling::drill_text;
use crate::serving::run_on;
use clof_answers::{check_on, select_on};
use command_texts::{calc_output, distrib_output, set_output, topo_output};
use command_words::Asked;
use edge_io::Source;
use placed_runner::Gate;
use std::alloc::Global;
use std::sync::Wait;
use std::thread::Threads;

/// The text that is printed, or the status where there is none.
pub(crate) fn answer<R: Threads + Wait + Sync, S: Source, G: Gate + Sync>(
    rt: &R,
    alloc: Global,
    asked: Asked<'_>,
    source: &mut S,
    gate: &G,
) -> Result<Vec<u8>, Status>
    ensures answered { Answered (plain asked.entry) (S.left source.old) (S.left source.new) (S.given source.old) (S.given source.new)
        (S.faults source.old) (S.faults source.new) result }
    ensures complete { AnswersUnrefused (plain asked.entry) (S.left source.old) (S.faults source.old) (S.faults source.new) result }
    ensures unread { (ReadsInput (plain asked.entry) → ⊥) → source.new ≡ source.old }
    ensures words_unread { (status : AnyStatus) → WordsRefused (plain asked.entry) status → source.new ≡ source.old }
{
    match asked {
        Asked::Run(asked) => run_on(rt, alloc, asked, source, gate),
        Asked::Set { list, text } => set_output(alloc, list, text),
        Asked::Topo { export, text } => topo_output(alloc, export, text),
        Asked::Calc(asked) => calc_output(alloc, &asked),
        Asked::Distrib(asked) => distrib_output(alloc, &asked),
        Asked::Select(asked) => select_on(alloc, &asked, source),
        Asked::Drill(number) => drill_text(rt, alloc, number, gate),
        Asked::Check(asked) => check_on(alloc, asked, source),
    }
}
