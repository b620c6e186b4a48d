//! The process that the program runs in: its words, its streams and its exit status.
ghost use Rattle.std.specs.Prelude.{◌≡◌, ◌≢◌, ◌⊎◌, drop, IfErr, IfOk};
ghost use Rattle.std.specs.IoError.{error_kind};
ghost use Rattle.std.specs.Process.{exit_status};
ghost use Rattle.command_texts.specs.declared.status.Status.{Status as AnyStatus};
ghost use Rattle.clof_tool.specs.Process.{words_of_process, input_of, output_of, errors_of, IsUnread, IsUnwritten};
ghost use Rattle.clof_tool.specs.Ended.{Ended, EndedWordless, source_state, sink_state};
ghost use Rattle.command_texts.specs.Status.{code_of};
ghost use Rattle.command_words.specs.Words.{NamesCommand, IsUsage};
ghost use Rattle.edge_io.specs.Standard.{reader_left, reader_given, reader_faults, writer_held, writer_room, writer_faults, writer_stalls};

use crate::Status;
use crate::calling::call_top;
use clof_answers::report;
use edge_io::{Sink, Source, StdSink, StdSource};
use std::alloc::Global;
use std::io::{ErrorKind, Stderr, Stdin, Stdout};
use std::process::ExitCode;
use std::sync::Wait;
use std::thread::Threads;
use std::{env, io};

/// The process that the program runs in: the words behind its name, where its input comes from, and where its output and
/// what it tells of errors go.
#[derive(Drop)]
pub struct Process<S, K, E> {
    words: io::Result<Vec<String>>,
    input: S,
    output: K,
    errors: E,
}

impl Process<StdSource<Stdin>, StdSink<Stdout>, StdSink<Stderr>> {
    /// The process of the runtime, whose standard streams haven't been read or written yet.
    pub fn new(rt: &HostRuntime) -> Process<StdSource<Stdin>, StdSink<Stdout>, StdSink<Stderr>>
        ensures input { IsUnread (source_state reader_left reader_given reader_faults (input_of result)) }
        ensures output { IsUnwritten (sink_state writer_held writer_room writer_faults writer_stalls (output_of result)) }
        ensures errors { IsUnwritten (sink_state writer_held writer_room writer_faults writer_stalls (errors_of result)) }
    {
        Process::over(
            words(rt),
            StdSource::new(rt.stdin()),
            StdSink::new(rt.stdout()),
            StdSink::new(rt.stderr()),
        )
    }
}

impl<S: Source, K: Sink, E: Sink> Process<S, K, E> {
    /// A process with these words, or the error for which they can't be had, and these streams.
    pub fn over(words: io::Result<Vec<String>>, input: S, output: K, errors: E) -> Process<S, K, E>
        ensures words { words_of_process result ≡ words }
        ensures input { input_of result ≡ input }
        ensures output { output_of result ≡ output }
        ensures errors { errors_of result ≡ errors }
    {
        Process {
            words,
            input,
            output,
            errors,
        }
    }

    /// Where its output went.
    pub fn output(&self) -> &K
        ensures { result.now ≡ output_of self.now }
    {
        &self.output
    }

    /// Where what it told of errors went.
    pub fn errors(&self) -> &E
        ensures { result.now ≡ errors_of self.now }
    {
        &self.errors
    }

    /// Makes the top call on the process's words and streams, and answers the exit status of its code. Words that aren't
    /// text are taken as none, which is Usage.
    pub fn serve<R: Threads + Wait + Sync>(&mut self, rt: &R, alloc: Global) -> ExitCode
        ensures ended { IfOk (words_of_process self.old) (λ words. (status : AnyStatus) × (exit_status result ≡ code_of status)
            × Ended words.items
            (source_state S.left S.given S.faults (input_of self.old))
            (source_state S.left S.given S.faults (input_of self.new))
            (sink_state K.held K.room K.faults K.stalls (output_of self.old))
            (sink_state K.held K.room K.faults K.stalls (output_of self.new))
            (sink_state E.held E.room E.faults E.stalls (errors_of self.old))
            (sink_state E.held E.room E.faults E.stalls (errors_of self.new))
            status) }
        ensures wordless { IfErr (words_of_process self.old) (λ _. (status : AnyStatus) × (exit_status result ≡ code_of status)
            × EndedWordless
            (source_state S.left S.given S.faults (input_of self.old))
            (source_state S.left S.given S.faults (input_of self.new))
            (sink_state K.held K.room K.faults K.stalls (output_of self.old))
            (sink_state K.held K.room K.faults K.stalls (output_of self.new))
            (sink_state E.held E.room E.faults E.stalls (errors_of self.old))
            (sink_state E.held E.room E.faults E.stalls (errors_of self.new))
            status) }
        ensures usage { IfOk (words_of_process self.old) (λ words. exit_status result ≡ 2 → IsUsage words.items) }
        ensures usage_else { IfOk (words_of_process self.old) (λ words. IsUsage words.items →
            (exit_status result ≡ 2) ⊎ ((exit_status result ≡ 7) × NamesCommand words.items)) }
        ensures no_words { IfErr (words_of_process self.old) (λ error. error_kind error ≢ ErrorKind.OutOfMemory → exit_status result ≡ 2) }
        ensures no_memory { IfErr (words_of_process self.old) (λ error. error_kind error ≡ ErrorKind.OutOfMemory → exit_status result ≡ 7) }
    {
        ExitCode::from(self.end(rt, alloc).code())
    }

    // Makes the top call on the words. Where they can't be had, nothing is read or printed, and standard error is told why.
    fn end<R: Threads + Wait + Sync>(&mut self, rt: &R, alloc: Global) -> Status
        ensures ended { IfOk (words_of_process self.old) (λ words. Ended words.items
            (source_state S.left S.given S.faults (input_of self.old))
            (source_state S.left S.given S.faults (input_of self.new))
            (sink_state K.held K.room K.faults K.stalls (output_of self.old))
            (sink_state K.held K.room K.faults K.stalls (output_of self.new))
            (sink_state E.held E.room E.faults E.stalls (errors_of self.old))
            (sink_state E.held E.room E.faults E.stalls (errors_of self.new))
            result) }
        ensures wordless { IfErr (words_of_process self.old) (λ _. EndedWordless
            (source_state S.left S.given S.faults (input_of self.old))
            (source_state S.left S.given S.faults (input_of self.new))
            (sink_state K.held K.room K.faults K.stalls (output_of self.old))
            (sink_state K.held K.room K.faults K.stalls (output_of self.new))
            (sink_state E.held E.room E.faults E.stalls (errors_of self.old))
            (sink_state E.held E.room E.faults E.stalls (errors_of self.new))
            result) }
        ensures no_words { IfErr (words_of_process self.old) (λ error. error_kind error ≢ ErrorKind.OutOfMemory → result ≡ Status.Usage) }
        ensures no_memory { IfErr (words_of_process self.old) (λ error. error_kind error ≡ ErrorKind.OutOfMemory →
            result ≡ Status.OutOfMemory) }
    {
        let Process {
            words,
            input,
            output,
            errors,
        } = self;
        match words {
            Ok(words) => call_top(rt, alloc, words, input, output, errors),
            Err(error) => {
                let status = status_of(error.kind());
                report(errors, &status);
                status
            }
        }
    }
}

// How the program ends where its words can't be had.
fn status_of(kind: ErrorKind) -> Status
    ensures memory { kind ≡ ErrorKind.OutOfMemory → result ≡ Status.OutOfMemory }
    ensures other { kind ≢ ErrorKind.OutOfMemory → result ≡ Status.Usage }
{
    match kind {
        ErrorKind::OutOfMemory => Status::OutOfMemory,
        _ => Status::Usage,
    }
}

// The words behind the program's name.
fn words(rt: &HostRuntime) -> io::Result<Vec<String>> {
    Ok(behind_name(env::args(rt)?.collect(rt.alloc())?))
}

// The words behind the first, which is the program's name.
fn behind_name(mut words: Vec<String>) -> Vec<String>
    ensures { result.items ≡ drop 1 words.items }
{
    if !words.is_empty() {
        words.remove(0);
    }
    words
}
