//! What standard error is told.
ghost use Rattle.std.specs.Prelude.{◌≡◌, ◌≢◌, ℕ, take};
ghost use Rattle.edge_io.specs.Counts.{Rose};
ghost use Rattle.edge_io.specs.Contents.{Gains};
ghost use Rattle.command_texts.specs.Line.{line_of};

use crate::Status;
use command_texts::line_of;
use edge_io::{Sink, write_all};

/// Writes the line that tells of a status, all of it at once, and nothing where the status is Ok. A failure to write it
/// changes nothing else.
pub fn report<E: Sink>(err: &mut E, status: &Status)
    ensures silent { status.now ≡ Status.Ok → err.new ≡ err.old }
    ensures told { status.now ≢ Status.Ok →
        (Rose (E.faults err.old) (E.faults err.new) → ⊥) → (Rose (E.stalls err.old) (E.stalls err.new) → ⊥) →
        Gains (E.held err.old) (E.held err.new) (line_of status.now) }
    ensures told_in_part { status.now ≢ Status.Ok →
        (written : ℕ) × Gains (E.held err.old) (E.held err.new) (take written (line_of status.now)) }
{
    match status {
        Status::Ok => {}
        _ => {
            let _ = write_all(err, line_of(status).as_str().as_bytes());
        }
    }
}
