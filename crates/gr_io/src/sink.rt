//! What every sink promises, so that writers needn't know where their bytes go.
ghost use Rattle.std.specs.Prelude.{◌≡◌, ℕ, ◌<◌, ◌≤◌, Bool, List, ◌++◌, take, length, IsTrue, OnOk, OnErr, IfOk};
ghost use Rattle.gr_io.specs.Counts.{Rose};

use crate::shelf::Failed;

/// Where bytes are written.
pub trait Sink {
    /// Whether `written` tells the bytes. Where it is false it claims nothing.
    ghost tells: { Bool };

    /// How many calls have failed.
    ghost faults: { Self → ℕ };

    /// The bytes that were written, from the first on.
    ghost written: { Self → List ℕ };

    /// Appends the first bytes of a text that isn't empty, and says how many: at least one.
    fn write(&mut self, bytes: &[u8]) -> Result<usize, Failed>
        requires { 0 < length bytes.now }
        ensures some { IfOk result (λ count. 1 ≤ count) }
        ensures within { IfOk result (λ count. count ≤ length bytes.now) }
        ensures appended { IfOk result (λ count. IsTrue tells →
            written self.new ≡ written self.old ++ take count bytes.now) }
        ensures unchanged { OnErr result (IsTrue tells → written self.new ≡ written self.old) }
        ensures failed { OnErr result (Rose (faults self.old) (faults self.new)) }
        ensures quiet { OnOk result (faults self.new ≡ faults self.old) }
        ensures faults_kept { faults self.old ≤ faults self.new };
}
