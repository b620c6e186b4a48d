//! The top call.
ghost use Rattle.std.specs.Prelude.{◌≡◌, ◌≢◌, ◌<◌, ◌⊎◌, ℕ, List, Some, length, take, IfSome};
ghost use Rattle.out_of_memory.specs.Memory.{UnlessMemory};
ghost use Rattle.edge_io.specs.Counts.{Rose};
ghost use Rattle.edge_io.specs.Contents.{Gains, IsDrained};
ghost use Rattle.edge_io.specs.Reading.{HasGiven};
ghost use Rattle.command_texts.specs.declared.status.Status.{Status as AnyStatus};
ghost use Rattle.command_texts.specs.Line.{line_of};
ghost use Rattle.command_words.specs.Asked.{Asked as PlainAsked};
ghost use Rattle.command_words.specs.Words.{Says, NamesCommand, IsUsage};
ghost use Rattle.command_texts.specs.Ends.{IsRefusal};
ghost use Rattle.clof_answers.specs.Outcome.{ReadsInput, limit_of, HasRead, IsAccepted, IsAnswer, WordsRefused, InputRefused, HasCause};
ghost use Rattle.command_texts.specs.Ends.{HasWritten};

use crate::Status;
use crate::answer::answer;
use clof_answers::{print, read, report};
use edge_io::{Sink, Source};
use placed_runner::{Gate, OpenGate};
use std::alloc::Global;
use std::sync::Wait;
use std::thread::Threads;

/// Does all that the program does: reads the words behind its name, reads `source` where they ask for it, writes the
/// text to `out`, and one line to `err` where the status isn't Ok. All of the text is made before the first write.
///
/// Ok: the whole text was written, and the source, where it is asked for, is at its end. Usage: the words ask for nothing
/// that the program does; nothing was read. Malformed: the input or a word is refused. Limit: the input is longer than
/// 16,777,216 bytes, or 67,108,864 for `check`, or a description has too many levels or objects. ReadFault and WriteFault: a
/// read or a write failed, or the output took no more. OutOfMemory: memory was wanting. Nothing is written to `out` on a
/// status other than Ok and WriteFault.
pub fn top<R: Threads + Wait + Sync, S: Source, K: Sink, E: Sink>(
    rt: &R,
    alloc: Global,
    words: &[String],
    source: &mut S,
    out: &mut K,
    err: &mut E,
) -> Status
    // The words.
    ensures usage { result ≡ Status.Usage → IsUsage words.now }
    ensures usage_else { IsUsage words.now →
        (result ≡ Status.Usage) ⊎ ((result ≡ Status.OutOfMemory) × NamesCommand words.now) }
    ensures unread { IsUsage words.now → source.new ≡ source.old }
    ensures unread_else { (asked : PlainAsked) → Says words.now asked → (ReadsInput asked → ⊥) → source.new ≡ source.old }

    // What is refused by the words alone, whatever the input is.
    ensures words_refused { (asked : PlainAsked) (status : AnyStatus) → Says words.now asked → WordsRefused asked status →
        UnlessMemory Status.OutOfMemory result (result ≡ status) }
    ensures unread_refused { (asked : PlainAsked) (status : AnyStatus) → Says words.now asked → WordsRefused asked status →
        source.new ≡ source.old }

    // What is refused by what was read, and the cause of each refusal.
    ensures input_refused { (asked : PlainAsked) (input : List ℕ) (status : AnyStatus) → Says words.now asked →
        S.left source.old ≡ Some input → InputRefused asked input status → (Rose (S.faults source.old) (S.faults source.new) → ⊥) →
        UnlessMemory Status.OutOfMemory result (result ≡ status) }
    ensures cause { (asked : PlainAsked) → Says words.now asked → IsRefusal result →
        HasCause asked (S.left source.old) (S.given source.old) (S.given source.new) result }

    // What is printed, and that the input was read to its end.
    ensures printed { (asked : PlainAsked) → Says words.now asked → result ≡ Status.Ok →
        (input : List ℕ) × (text : List ℕ) × HasRead asked (S.left source.old) (S.given source.old) (S.given source.new) input
        × IsAnswer asked input text × Gains (K.held out.old) (K.held out.new) text }
    ensures at_end { (asked : PlainAsked) → Says words.now asked → ReadsInput asked → result ≡ Status.Ok →
        IsDrained (S.left source.old) (S.left source.new) }
    ensures complete { (asked : PlainAsked) → Says words.now asked → ((status : AnyStatus) → WordsRefused asked status → ⊥) →
        (ReadsInput asked → IsAccepted asked (S.left source.old)) →
        (ReadsInput asked → Rose (S.faults source.old) (S.faults source.new) → ⊥) →
        (Rose (K.faults out.old) (K.faults out.new) → ⊥) → (Rose (K.stalls out.old) (K.stalls out.new) → ⊥) →
        UnlessMemory Status.OutOfMemory result (result ≡ Status.Ok) }

    // Faults of the source.
    ensures read_fault { result ≡ Status.ReadFault → Rose (S.faults source.old) (S.faults source.new) }
    ensures read_fault_input { (asked : PlainAsked) → Says words.now asked → result ≡ Status.ReadFault → ReadsInput asked }
    ensures read_in_part { (asked : PlainAsked) → Says words.now asked → result ≡ Status.ReadFault →
        HasGiven (limit_of asked) (S.left source.old) (S.left source.new) (S.given source.old) (S.given source.new) }
    ensures read_calm { result ≢ Status.ReadFault → S.faults source.new ≡ S.faults source.old }

    // The output: faults and stalls, what they leave, and calm where all goes well.
    ensures write_fault { (written : ℕ) → result ≡ Status.WriteFault written →
        Rose (K.faults out.old) (K.faults out.new) ⊎ Rose (K.stalls out.old) (K.stalls out.new) }
    ensures write_full { (written : ℕ) → result ≡ Status.WriteFault written →
        Rose (K.faults out.old) (K.faults out.new) ⊎ IfSome (K.room out.old) (λ room. room ≡ written) }
    ensures cut_short { (asked : PlainAsked) (written : ℕ) → Says words.now asked → result ≡ Status.WriteFault written →
        (input : List ℕ) × (text : List ℕ) × HasRead asked (S.left source.old) (S.given source.old) (S.given source.new) input
        × IsAnswer asked input text × (written < length text) × Gains (K.held out.old) (K.held out.new) (take written text) }
    ensures unwritten { (HasWritten result → ⊥) → out.new ≡ out.old }
    ensures no_write_fault { result ≡ Status.Ok → K.faults out.new ≡ K.faults out.old }
    ensures no_stall { result ≡ Status.Ok → K.stalls out.new ≡ K.stalls out.old }

    // Standard error: nothing on Ok, else the line, or a part of it where it could not all be written.
    ensures silent { result ≡ Status.Ok → err.new ≡ err.old }
    ensures told { result ≢ Status.Ok →
        (Rose (E.faults err.old) (E.faults err.new) → ⊥) → (Rose (E.stalls err.old) (E.stalls err.new) → ⊥) →
        Gains (E.held err.old) (E.held err.new) (line_of result) }
    ensures told_in_part { result ≢ Status.Ok → (written : ℕ) × Gains (E.held err.old) (E.held err.new) (take written (line_of result)) }
{
    top_with(rt, alloc, words, source, out, err, &OpenGate)
}

/// What `top` does, through a gate: each caller of `run` tells it when it is queued for the lock, and when it holds it.
pub fn top_with<R: Threads + Wait + Sync, S: Source, K: Sink, E: Sink, G: Gate + Sync>(
    rt: &R,
    alloc: Global,
    words: &[String],
    source: &mut S,
    out: &mut K,
    err: &mut E,
    gate: &G,
) -> Status
    // The words.
    ensures usage { result ≡ Status.Usage → IsUsage words.now }
    ensures usage_else { IsUsage words.now →
        (result ≡ Status.Usage) ⊎ ((result ≡ Status.OutOfMemory) × NamesCommand words.now) }
    ensures unread { IsUsage words.now → source.new ≡ source.old }
    ensures unread_else { (asked : PlainAsked) → Says words.now asked → (ReadsInput asked → ⊥) → source.new ≡ source.old }

    // What is refused by the words alone, whatever the input is.
    ensures words_refused { (asked : PlainAsked) (status : AnyStatus) → Says words.now asked → WordsRefused asked status →
        UnlessMemory Status.OutOfMemory result (result ≡ status) }
    ensures unread_refused { (asked : PlainAsked) (status : AnyStatus) → Says words.now asked → WordsRefused asked status →
        source.new ≡ source.old }

    // What is refused by what was read, and the cause of each refusal.
    ensures input_refused { (asked : PlainAsked) (input : List ℕ) (status : AnyStatus) → Says words.now asked →
        S.left source.old ≡ Some input → InputRefused asked input status → (Rose (S.faults source.old) (S.faults source.new) → ⊥) →
        UnlessMemory Status.OutOfMemory result (result ≡ status) }
    ensures cause { (asked : PlainAsked) → Says words.now asked → IsRefusal result →
        HasCause asked (S.left source.old) (S.given source.old) (S.given source.new) result }

    // What is printed, and that the input was read to its end.
    ensures printed { (asked : PlainAsked) → Says words.now asked → result ≡ Status.Ok →
        (input : List ℕ) × (text : List ℕ) × HasRead asked (S.left source.old) (S.given source.old) (S.given source.new) input
        × IsAnswer asked input text × Gains (K.held out.old) (K.held out.new) text }
    ensures at_end { (asked : PlainAsked) → Says words.now asked → ReadsInput asked → result ≡ Status.Ok →
        IsDrained (S.left source.old) (S.left source.new) }
    ensures complete { (asked : PlainAsked) → Says words.now asked → ((status : AnyStatus) → WordsRefused asked status → ⊥) →
        (ReadsInput asked → IsAccepted asked (S.left source.old)) →
        (ReadsInput asked → Rose (S.faults source.old) (S.faults source.new) → ⊥) →
        (Rose (K.faults out.old) (K.faults out.new) → ⊥) → (Rose (K.stalls out.old) (K.stalls out.new) → ⊥) →
        UnlessMemory Status.OutOfMemory result (result ≡ Status.Ok) }

    // Faults of the source.
    ensures read_fault { result ≡ Status.ReadFault → Rose (S.faults source.old) (S.faults source.new) }
    ensures read_fault_input { (asked : PlainAsked) → Says words.now asked → result ≡ Status.ReadFault → ReadsInput asked }
    ensures read_in_part { (asked : PlainAsked) → Says words.now asked → result ≡ Status.ReadFault →
        HasGiven (limit_of asked) (S.left source.old) (S.left source.new) (S.given source.old) (S.given source.new) }
    ensures read_calm { result ≢ Status.ReadFault → S.faults source.new ≡ S.faults source.old }

    // The output: faults and stalls, what they leave, and calm where all goes well.
    ensures write_fault { (written : ℕ) → result ≡ Status.WriteFault written →
        Rose (K.faults out.old) (K.faults out.new) ⊎ Rose (K.stalls out.old) (K.stalls out.new) }
    ensures write_full { (written : ℕ) → result ≡ Status.WriteFault written →
        Rose (K.faults out.old) (K.faults out.new) ⊎ IfSome (K.room out.old) (λ room. room ≡ written) }
    ensures cut_short { (asked : PlainAsked) (written : ℕ) → Says words.now asked → result ≡ Status.WriteFault written →
        (input : List ℕ) × (text : List ℕ) × HasRead asked (S.left source.old) (S.given source.old) (S.given source.new) input
        × IsAnswer asked input text × (written < length text) × Gains (K.held out.old) (K.held out.new) (take written text) }
    ensures unwritten { (HasWritten result → ⊥) → out.new ≡ out.old }
    ensures no_write_fault { result ≡ Status.Ok → K.faults out.new ≡ K.faults out.old }
    ensures no_stall { result ≡ Status.Ok → K.stalls out.new ≡ K.stalls out.old }

    // Standard error: nothing on Ok, else the line, or a part of it where it could not all be written.
    ensures silent { result ≡ Status.Ok → err.new ≡ err.old }
    ensures told { result ≢ Status.Ok →
        (Rose (E.faults err.old) (E.faults err.new) → ⊥) → (Rose (E.stalls err.old) (E.stalls err.new) → ⊥) →
        Gains (E.held err.old) (E.held err.new) (line_of result) }
    ensures told_in_part { result ≢ Status.Ok → (written : ℕ) × Gains (E.held err.old) (E.held err.new) (take written (line_of result)) }
{
    let asked = match read(alloc, words) {
        Ok(asked) => asked,
        Err(status) => {
            report(err, &status);
            return status;
        }
    };
    let status = print(answer(rt, alloc, asked, source, gate), out);
    report(err, &status);
    status
}
