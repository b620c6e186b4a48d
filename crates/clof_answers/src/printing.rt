//! The writing of the text.
ghost use Rattle.std.specs.Prelude.{◌≡◌, ◌<◌, ◌⊎◌, ℕ, length, take, IfErr, IfOk, IfSome};
ghost use Rattle.edge_io.specs.Counts.{Rose};
ghost use Rattle.edge_io.specs.Contents.{Gains};
ghost use Rattle.command_texts.specs.Ends.{HasWritten};

use crate::Status;
use edge_io::{Sink, Stopped, write_all};

/// Writes the text of an answer, or hands on the status where there is none.
pub fn print<K: Sink>(answer: Result<Vec<u8>, Status>, out: &mut K) -> Status
    requires { IfErr answer (λ status. HasWritten status → ⊥) }
    ensures refused { IfErr answer (λ status. result ≡ status) }
    ensures done { IfOk answer (λ _. HasWritten result) }
    ensures printed { result ≡ Status.Ok → IfOk answer (λ text. Gains (K.held out.old) (K.held out.new) text.items) }
    ensures write_fault { (written : ℕ) → result ≡ Status.WriteFault written →
        Rose (K.faults out.old) (K.faults out.new) ⊎ Rose (K.stalls out.old) (K.stalls out.new) }
    ensures write_full { (written : ℕ) → result ≡ Status.WriteFault written →
        Rose (K.faults out.old) (K.faults out.new) ⊎ IfSome (K.room out.old) (λ room. room ≡ written) }
    ensures cut_short { (written : ℕ) → result ≡ Status.WriteFault written →
        IfOk answer (λ text. (written < length text.items) × Gains (K.held out.old) (K.held out.new) (take written text.items)) }
    ensures unwritten { (HasWritten result → ⊥) → out.new ≡ out.old }
    ensures no_write_fault { result ≡ Status.Ok → K.faults out.new ≡ K.faults out.old }
    ensures no_stall { result ≡ Status.Ok → K.stalls out.new ≡ K.stalls out.old }
    ensures complete { (Rose (K.faults out.old) (K.faults out.new) → ⊥) → (Rose (K.stalls out.old) (K.stalls out.new) → ⊥) →
        IfOk answer (λ _. result ≡ Status.Ok) }
{
    match answer {
        Ok(text) => match write_all(out, &text) {
            Ok(()) => Status::Ok,
            Err(Stopped { written }) => Status::WriteFault { written },
        },
        Err(status) => status,
    }
}
