//! The top call, with its clauses as one relation.
ghost use Rattle.clof_tool.specs.Ended.{Ended, source_state, sink_state};

use crate::{Status, top};
use edge_io::{Sink, Source};
use std::alloc::Global;
use std::sync::Wait;
use std::thread::Threads;

/// What `top` does: its words, its streams before and behind the call, and its status stand to each other as its clauses say.
pub(crate) fn call_top<R: Threads + Wait + Sync, S: Source, K: Sink, E: Sink>(
    rt: &R,
    alloc: Global,
    words: &[String],
    source: &mut S,
    out: &mut K,
    err: &mut E,
) -> Status
    ensures ended { Ended words.now
        (source_state S.left S.given S.faults source.old) (source_state S.left S.given S.faults source.new)
        (sink_state K.held K.room K.faults K.stalls out.old) (sink_state K.held K.room K.faults K.stalls out.new)
        (sink_state E.held E.room E.faults E.stalls err.old) (sink_state E.held E.room E.faults E.stalls err.new)
        result }
{
    top(rt, alloc, words, source, out, err)
}
