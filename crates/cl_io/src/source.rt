ghost use Rattle.std.specs.Prelude.{◌≡◌, ℕ, ◌<◌, ◌≤◌, Option, List, length, take, IfOk, OnOk, OnErr};
ghost use Rattle.cl_io.specs.Faults.{one_more};
ghost use Rattle.std.specs.Io.KnownBytes.{prepend_known, IsAtEnd};

use crate::Failed;

/// Where bytes come from.
pub trait Source {
    // The bytes that are left, where the source tells them.
    ghost left: { Self → Option (List ℕ) };

    // How many calls failed. It never falls.
    ghost faults: { Self → ℕ };

    /// Reads the next bytes into the front of the buffer and returns how many: perhaps fewer than are left.
    ///
    /// `Ok(0)` for a buffer that is not empty means the end of the source. The buffer behind the bytes
    /// may hold anything afterwards.
    fn read(&mut self, buf: &mut [u8]) -> Result<usize, Failed>
        ensures within { IfOk result (λ n. n ≤ length buf.old) }
        ensures size { length buf.new ≡ length buf.old }
        ensures given { IfOk result (λ n. left self.old ≡ prepend_known (take n buf.new) (left self.new)) }
        ensures end { IfOk result (λ n. n ≡ 0 → 0 < length buf.old → IsAtEnd (left self.new)) }
        ensures unchanged { OnErr result (left self.new ≡ left self.old) }

        // Exactly a call that fails is counted, so a read that succeeds hides no fault.
        ensures fault { OnErr result (faults self.new ≡ one_more (faults self.old)) }
        ensures unfaulted { OnOk result (faults self.new ≡ faults self.old) }
        ensures counted { faults self.old ≤ faults self.new };
}
