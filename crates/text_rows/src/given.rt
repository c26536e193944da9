//! Texts that are given in memory.
ghost use Rattle.std.specs.Prelude.{◌<◌, IsTrue, IfSome};
ghost use Rattle.gr_io.specs.Texts.{is_reached};

use gr_io::{MemoryShelf, Shelf, Slot};
use std::alloc::Global;

/// A shelf on which this text was reached, or None where memory is wanting. It gives at most so many
/// bytes at once.
pub(crate) fn shelf_of(alloc: Global, slot: Slot, text: &[u8], piece: u32) -> Option<MemoryShelf>
    requires { 0 < piece }
    ensures { IfSome result (λ shelf. IsTrue (is_reached shelf slot)) }
{
    let mut shelf = MemoryShelf::new(alloc, Vec::new(alloc));
    shelf.hold(alloc, "text", text).ok()?;
    shelf.piece(piece);
    shelf.reach(alloc, slot, "text").ok()?;
    Some(shelf)
}
