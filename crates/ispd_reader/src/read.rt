//! Reads a design from the next byte of a shelf's text to its end, with the readers of its parts.
ghost use Rattle.std.specs.Prelude.{◌≡◌, ℕ, ◌≤◌, List, [], IsTrue, OnOk};
ghost use Rattle.gr_io.specs.Counts.{Rose};
ghost use Rattle.gr_io.specs.declared.shelf.Slot.{Slot};
ghost use Rattle.gr_text.specs.Reads.{ReadsBy, Moves, Says, AtFault};
ghost use Rattle.gr_text.specs.Unread.{IsReadTo};
ghost use Rattle.ispd_reader.specs.DesignText.{design, design_of};

use crate::adjustments::adjustments;
use crate::fault::{DesignError, DesignFault};
use crate::header::frame;
use crate::nets::nets;
use gr_base::{Design, MOST_BYTES};
use gr_io::{Shelf, Slot};
use gr_text::{ReadError, TokenReader, TokenSource, Tokens};
use std::alloc::Global;

/// Reads a whole design text.
#[tactic(auto, unfolding(crate::specs::DesignText::design))]
fn design<S: TokenSource>(alloc: Global, source: &mut S) -> Result<Design, ReadError<DesignFault>>
    ensures reads { ReadsBy S.tells S.place design (λ design. design) result source.old source.new }
    ensures moves { Moves S.faults S.reaches S.stops S.origin result source.old source.new }
    ensures ended { OnOk result (IsTrue S.tells → S.ended source.new) }
{
    let frame = frame(source)?;
    let Ok(mut design) = Design::new(alloc, frame) else {
        return Err(ReadError::NoMemory);
    };
    nets(alloc, source, &mut design)?;
    adjustments(source, &mut design)?;
    Ok(design)
}

/// Reads the design text that was reached on the shelf, from its next byte to its end.
///
/// # Errors
/// `Fault` with the first fault of the text, exactly where it has one and no read failed; `Failed`
/// where a read failed; `NoMemory`.
pub fn read_design<S: Shelf>(alloc: Global, shelf: &mut S) -> Result<Design, DesignError>
    requires reached { IsTrue (S.reached shelf.old Slot.Design) }

    // Where the shelf tells the bytes, the answer is the design that they say, or their first fault.
    ensures says { IsTrue S.tells → Says (design_of (S.left shelf.old Slot.Design)) result }
    ensures whole_text { OnOk result (IsTrue S.tells → S.left shelf.new Slot.Design ≡ []) }

    // At a fault little is read behind the token that it names.
    ensures rest_unread { IsTrue S.tells → AtFault result (λ token.
        IsReadTo (S.left shelf.old Slot.Design) token (S.left shelf.new Slot.Design)) }

    ensures failed { result ≡ Err ReadError.Failed → Rose (S.faults shelf.old) (S.faults shelf.new) }
    ensures quiet { (result ≡ Err ReadError.Failed → ⊥) → S.faults shelf.new ≡ S.faults shelf.old }
    ensures faults_kept { S.faults shelf.old ≤ S.faults shelf.new }
    ensures misses { S.misses shelf.new ≡ S.misses shelf.old }
    ensures held { (slot : Slot) → (name : List ℕ) → S.held shelf.new slot name ≡ S.held shelf.old slot name }
{
    let mut tokens = Tokens::new(alloc, Slot::Design, MOST_BYTES)?;
    let mut reader = TokenReader {
        tokens: &mut tokens,
        shelf,
    };
    design(alloc, &mut reader)
}
