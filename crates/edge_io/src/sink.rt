//! Where bytes go.
ghost use Rattle.std.specs.Prelude.{◌≡◌, ◌≤◌, ◌<◌, ℕ, List, length, take, IfOk, OnErr};
ghost use Rattle.std.specs.declared.option.Option.{Option};
ghost use Rattle.edge_io.specs.Counts.{Rose};
ghost use Rattle.edge_io.specs.Contents.{Gains, FallsBy, IsSpent};

use crate::Failed;

/// A sink for bytes.
pub trait Sink {
    /// The bytes taken so far, where the sink tells them.
    ghost held: { Self → Option (List ℕ) };

    /// How many bytes it can still take, where it tells that.
    ghost room: { Self → Option ℕ };

    /// How many of its writes have failed.
    ghost faults: { Self → ℕ };

    /// How often it took no byte of a piece that had some.
    ghost stalls: { Self → ℕ };

    /// Takes the first bytes of `piece` and answers how many. `Failed` where the write failed, which the sink has
    /// counted.
    fn write(&mut self, piece: &[u8]) -> Result<usize, Failed>
        ensures bound { IfOk result (λ count. count ≤ length piece.now) }
        ensures held { IfOk result (λ count. Gains (held self.old) (held self.new) (take count piece.now)) }
        ensures room { IfOk result (λ count. FallsBy count (room self.old) (room self.new)) }
        ensures stalled { IfOk result (λ count. count ≡ 0 → 0 < length piece.now → Rose (stalls self.old) (stalls self.new)) }
        ensures full { IfOk result (λ count. count ≡ 0 → 0 < length piece.now → IsSpent (room self.new)) }
        ensures moved { IfOk result (λ count. 0 < count → stalls self.new ≡ stalls self.old) }
        ensures nothing { length piece.now ≡ 0 → stalls self.new ≡ stalls self.old }
        ensures calm { IfOk result (λ _. faults self.new ≡ faults self.old) }
        ensures failed { OnErr result (Rose (faults self.old) (faults self.new)) }
        ensures stalls_stay { OnErr result (stalls self.new ≡ stalls self.old) }
        ensures held_stays { OnErr result (held self.new ≡ held self.old) }
        ensures room_stays { OnErr result (room self.new ≡ room self.old) }
        ensures faults_never_fall { faults self.old ≤ faults self.new }
        ensures stalls_never_fall { stalls self.old ≤ stalls self.new };
}
