//! Where bytes come from.
ghost use Rattle.std.specs.Prelude.{◌≡◌, ◌≤◌, ◌<◌, ℕ, List, length, take, IfOk, OnOk, OnErr};
ghost use Rattle.std.specs.declared.option.Option.{Option};
ghost use Rattle.edge_io.specs.Counts.{Rose, RisesBy};
ghost use Rattle.edge_io.specs.Contents.{Loses, IsAtEnd};

use crate::Failed;

/// A source of bytes.
pub trait Source {
    /// The bytes still to come, where the source tells them.
    ghost left: { Self → Option (List ℕ) };

    /// How many bytes it has given so far.
    ghost given: { Self → ℕ };

    /// How many of its reads have failed.
    ghost faults: { Self → ℕ };

    /// Reads the next bytes into the front of `buf` and answers how many they are: 0 at the end, or for an empty
    /// `buf`. `Failed` where the read failed, which the source has counted.
    fn read(&mut self, buf: &mut [u8]) -> Result<usize, Failed>
        ensures bound { IfOk result (λ count. count ≤ length buf.new) }
        ensures bytes { IfOk result (λ count. Loses (left self.old) (left self.new) (take count buf.new)) }
        ensures given { IfOk result (λ count. RisesBy count (given self.old) (given self.new)) }
        ensures end { IfOk result (λ count. count ≡ 0 → 0 < length buf.old → IsAtEnd (left self.old)) }
        ensures calm { OnOk result (faults self.new ≡ faults self.old) }
        ensures failed { OnErr result (Rose (faults self.old) (faults self.new)) }
        ensures left_stays { OnErr result (left self.new ≡ left self.old) }
        ensures given_stays { OnErr result (given self.new ≡ given self.old) }
        ensures never_falls { faults self.old ≤ faults self.new };
}
