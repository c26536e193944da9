//! What every shelf promises, so that readers needn't know whether files or memory stand behind it.
ghost use Rattle.std.specs.Prelude.{◌≡◌, ℕ, ◌+◌, ◌<◌, ◌≤◌, ◌↔◌, Bool, true, List, [], ◌++◌, Option, Some, None, take, length, IsTrue, OnOk, OnErr, IfOk};
ghost use Rattle.gr_io.specs.Counts.{Rose};
ghost use Rattle.gr_io.specs.Shelves.{StaysOpen, SameTexts};
ghost use Rattle.gr_io.specs.declared.shelf.Slot.{Slot};

use std::alloc::Global;
use thiserror::Error;

/// A read or a write failed. The device counts its faults.
#[derive(Clone, Copy, Debug, PartialEq, Eq, Error)]
#[error("a device failed")]
pub struct Failed;

/// The texts that a command may have open at once.
#[derive(Clone, Copy, Debug, PartialEq, Eq)]
pub enum Slot {
    Design,
    Library,
    Solution,
}

/// Why a named text wasn't opened.
#[derive(Clone, Copy, Debug, PartialEq, Eq, Error)]
pub enum ReachError {
    #[error("there is no such text")]
    Missing,
    #[error("a device failed")]
    Failed,
    #[error("out of memory")]
    NoMemory,
}

/// Named texts, one of which may be open in each slot.
pub trait Shelf {
    /// Whether `left` and `held` tell the bytes. Where it is false they claim nothing.
    ghost tells: { Bool };

    /// How many calls have failed.
    ghost faults: { Self → ℕ };

    /// How often a name was missing.
    ghost misses: { Self → ℕ };

    /// Whether a text is open in the slot.
    ghost reached: { Self → Slot → Bool };

    /// The bytes of the slot's text that are not yet read.
    ghost left: { Self → Slot → List ℕ };

    /// The bytes under a name, or None where the name isn't held.
    ghost held: { Self → Slot → List ℕ → Option (List ℕ) };

    /// Opens the named text in the slot, from its start.
    fn reach(&mut self, alloc: Global, slot: Slot, name: &str) -> Result<(), ReachError>
        ensures reached { OnOk result (IsTrue (reached self.new slot)) }
        ensures opened { OnOk result (IsTrue tells → held self.old slot name.now ≡ Some (left self.new slot)) }
        ensures missing { result ≡ Err ReachError.Missing → Rose (misses self.old) (misses self.new) }
        ensures not_held { result ≡ Err ReachError.Missing → IsTrue tells → held self.old slot name.now ≡ None }
        ensures failed { result ≡ Err ReachError.Failed → Rose (faults self.old) (faults self.new) }

        // Only the count of the answer given may rise, and no count falls.
        ensures faults { (result ≡ Err ReachError.Failed → ⊥) → faults self.new ≡ faults self.old }
        ensures misses { (result ≡ Err ReachError.Missing → ⊥) → misses self.new ≡ misses self.old }
        ensures faults_kept { faults self.old ≤ faults self.new }
        ensures misses_kept { misses self.old ≤ misses self.new }
        ensures held { SameTexts (held self.old) (held self.new) };

    /// Reads the next bytes of the slot's text, at most as many as the buffer takes, and says how
    /// many: 0 exactly at the end of the text.
    fn read(&mut self, slot: Slot, buf: &mut [u8]) -> Result<usize, Failed>
        requires reached { IsTrue (reached self.old slot) }
        requires room { 0 < length buf.old }
        ensures within { IfOk result (λ count. count ≤ length buf.old) }
        ensures bytes { IfOk result (λ count. IsTrue tells →
            take count buf.new ++ left self.new slot ≡ left self.old slot) }
        ensures end { IfOk result (λ count. IsTrue tells → (count ≡ 0) ↔ (left self.old slot ≡ [])) }
        ensures failed { OnErr result (Rose (faults self.old) (faults self.new)) }
        ensures quiet { OnOk result (faults self.new ≡ faults self.old) }
        ensures faults_kept { faults self.old ≤ faults self.new }
        ensures misses { misses self.new ≡ misses self.old }
        ensures reached { StaysOpen (reached self.old) (reached self.new) }
        ensures held { SameTexts (held self.old) (held self.new) };
}
