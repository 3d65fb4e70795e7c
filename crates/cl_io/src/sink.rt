ghost use Rattle.std.specs.Prelude.{◌≡◌, ℕ, ◌<◌, ◌≤◌, ◌⊎◌, Option, List, length, take, IfOk, OnOk, OnErr};
ghost use Rattle.cl_io.specs.Faults.{one_more};
ghost use Rattle.std.specs.Io.KnownBytes.{append_known};

use crate::Failed;

/// Where bytes go to.
pub trait Sink {
    // The bytes that were written, where the sink tells them.
    ghost written: { Self → Option (List ℕ) };

    // The bytes that were flushed, where the sink tells them.
    ghost flushed: { Self → Option (List ℕ) };

    // How many calls failed. It never falls.
    ghost faults: { Self → ℕ };

    /// Writes the first bytes of the piece and returns how many: perhaps not all.
    ///
    /// A write that takes nothing of a piece that is not empty is a fault as well.
    fn write(&mut self, piece: &[u8]) -> Result<usize, Failed>
        ensures within { IfOk result (λ n. n ≤ length piece.now) }
        ensures taken { IfOk result (λ n. written self.new ≡ append_known (written self.old) (take n piece.now)) }
        ensures unchanged { OnErr result (written self.new ≡ written self.old) }

        // Exactly a call that fails or takes nothing is counted, so a write that succeeds hides no fault.
        ensures none { IfOk result (λ n. n ≡ 0 → 0 < length piece.now → faults self.new ≡ one_more (faults self.old)) }
        ensures unfaulted { IfOk result (λ n. (0 < n) ⊎ (length piece.now ≡ 0) → faults self.new ≡ faults self.old) }
        ensures fault { OnErr result (faults self.new ≡ one_more (faults self.old)) }
        ensures counted { faults self.old ≤ faults self.new };

    /// Brings everything written to its destination.
    fn flush(&mut self) -> Result<(), Failed>
        ensures flushed { OnOk result (flushed self.new ≡ written self.new) }
        ensures unchanged { written self.new ≡ written self.old }
        ensures fault { OnErr result (faults self.new ≡ one_more (faults self.old)) }
        ensures unfaulted { OnOk result (faults self.new ≡ faults self.old) }
        ensures counted { faults self.old ≤ faults self.new };
}
