//! Writing bytes to a sink.
ghost use Rattle.std.specs.Prelude.{◌≡◌, ◌≤◌, ◌<◌, ◌⊎◌, length, take, IfErr, OnErr, OnOk};
ghost use Rattle.edge_io.specs.Counts.{Rose};
ghost use Rattle.edge_io.specs.Contents.{Gains, FallsBy, IsSpent};

use crate::{Sink, Stopped};

/// Writes bytes to a sink until it has taken them all, handing it all that is left each time. `Stopped` where a
/// write failed or the sink took no more; it then holds the first `written` bytes, fewer than all.
pub fn write_all<K: Sink>(sink: &mut K, bytes: &[u8]) -> Result<(), Stopped>
    ensures held { OnOk result (Gains (K.held sink.old) (K.held sink.new) bytes.now) }
    ensures room { OnOk result (FallsBy (length bytes.now) (K.room sink.old) (K.room sink.new)) }
    ensures faults_stay { OnOk result (K.faults sink.new ≡ K.faults sink.old) }
    ensures stalls_stay { OnOk result (K.stalls sink.new ≡ K.stalls sink.old) }
    ensures cut_short { IfErr result (λ stopped. stopped.written < length bytes.now) }
    ensures prefix { IfErr result (λ stopped. Gains (K.held sink.old) (K.held sink.new) (take stopped.written bytes.now)) }
    ensures room_left { IfErr result (λ stopped. FallsBy stopped.written (K.room sink.old) (K.room sink.new)) }
    ensures cause { OnErr result (Rose (K.faults sink.old) (K.faults sink.new) ⊎ Rose (K.stalls sink.old) (K.stalls sink.new)) }
    ensures full { OnErr result (Rose (K.faults sink.old) (K.faults sink.new) ⊎ IsSpent (K.room sink.new)) }
    ensures faults_never_fall { K.faults sink.old ≤ K.faults sink.new }
    ensures stalls_never_fall { K.stalls sink.old ≤ K.stalls sink.new }
{
    let mut written = 0;
    while written < bytes.len() {
        match sink.write(&bytes[written..]) {
            Ok(0) => return Err(Stopped { written }),
            Ok(count) => written += count,
            Err(_) => return Err(Stopped { written }),
        }
    }
    Ok(())
}
