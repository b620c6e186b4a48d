//! The top call over bytes in memory.
ghost use Rattle.std.specs.Prelude.{◌≡◌, ◌≢◌, ◌++◌, ℕ, List};
ghost use Rattle.command_words.specs.Asked.{Asked as PlainAsked};
ghost use Rattle.command_words.specs.Words.{Says};
ghost use Rattle.clof_answers.specs.Outcome.{IsAnswer};
ghost use Rattle.clof_tool.specs.Ended.{Ended, sink_state};
ghost use Rattle.clof_tool.specs.InMemory.{sure_source, sure_sink};
ghost use Rattle.clof_tool.specs.Room.{HasRoom};

use crate::Status;
use crate::calling::call_top;
use edge_io::{Sink, SureSink, SureSource};
use std::alloc::Global;
use std::sync::Wait;
use std::thread::Threads;

/// What `top` does over bytes in memory, neither of whose ends fails: it never answers ReadFault, and it answers no WriteFault where the
/// output has room for every text that answers these words and this input. On Ok the output has gained such a text.
pub fn top_in_memory<R: Threads + Wait + Sync, E: Sink>(
    rt: &R,
    alloc: Global,
    words: &[String],
    source: &mut SureSource,
    out: &mut SureSink,
    err: &mut E,
) -> Status
    ensures ended { Ended words.now (sure_source source.old) (sure_source source.new) (sure_sink out.old) (sure_sink out.new)
        (sink_state E.held E.room E.faults E.stalls err.old) (sink_state E.held E.room E.faults E.stalls err.new) result }
    ensures no_read_fault { result ≢ Status.ReadFault }
    ensures no_write_fault { HasRoom words.now source.old.left out.old.room → (written : ℕ) → result ≢ Status.WriteFault written }
    ensures printed { (asked : PlainAsked) → Says words.now asked → result ≡ Status.Ok →
        (text : List ℕ) × IsAnswer asked source.old.left text × (out.new.held ≡ out.old.held ++ text) }
{
    call_top(rt, alloc, words, source, out, err)
}
