//! Reading a library from a shelf.
ghost use Rattle.std.specs.Prelude.{◌≡◌, ℕ, ◌≤◌, List, [], IsTrue, IfOk, OnOk, Err};
ghost use Rattle.gr_io.specs.Counts.{Rose};
ghost use Rattle.gr_io.specs.declared.shelf.Slot.{Slot};
ghost use Rattle.gr_text.specs.Reads.{Says, AtFault};
ghost use Rattle.gr_text.specs.Unread.{IsReadTo};
ghost use Rattle.rc_library.specs.Libraries.{IsLibraryOf};
ghost use Rattle.rc_library.specs.LibraryText.{library_of};

use crate::fault::{LibraryError, LibraryFault};
use crate::library::Library;
use crate::text::library;
use gr_base::{Design, MOST_BYTES};
use gr_io::{Shelf, Slot};
use gr_text::{ReadError, TokenReader, Tokens};
use std::alloc::Global;

/// Reads the library that was reached on the shelf, from its next byte to its end: a text of version
/// 1 to 3, for the layers, tiles, nets and pins of the design.
///
/// # Errors
/// `Fault` with the first fault of the text, exactly where it has one and no read failed; `Failed`
/// where a read failed; `NoMemory`.
pub fn read_library<S: Shelf>(
    alloc: Global,
    shelf: &mut S,
    design: &Design,
) -> Result<Library, LibraryError>
    requires reached { IsTrue (S.reached shelf.old Slot.Library) }

    // Where the shelf tells the bytes, the answer is the library that they say, or their first fault.
    ensures says { IsTrue S.tells → Says (library_of design.now (S.left shelf.old Slot.Library)) result }
    ensures whole_text { OnOk result (IsTrue S.tells → S.left shelf.new Slot.Library ≡ []) }

    // At a fault little is read behind the token that it names.
    ensures rest_unread { IsTrue S.tells → AtFault result (λ token.
        IsReadTo (S.left shelf.old Slot.Library) token (S.left shelf.new Slot.Library)) }

    // Whatever the shelf tells, a library is one for the design.
    ensures of { IfOk result (IsLibraryOf design.now) }

    ensures failed { result ≡ Err ReadError.Failed → Rose (S.faults shelf.old) (S.faults shelf.new) }
    ensures quiet { (result ≡ Err ReadError.Failed → ⊥) → S.faults shelf.new ≡ S.faults shelf.old }
    ensures faults_kept { S.faults shelf.old ≤ S.faults shelf.new }
    ensures misses { S.misses shelf.new ≡ S.misses shelf.old }
    ensures held { (slot : Slot) → (name : List ℕ) → S.held shelf.new slot name ≡ S.held shelf.old slot name }
{
    let mut tokens = Tokens::new(alloc, Slot::Library, MOST_BYTES)?;
    let mut reader = TokenReader {
        tokens: &mut tokens,
        shelf,
    };
    library(alloc, &mut reader, design)
}
