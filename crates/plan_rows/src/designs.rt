//! Rows of a design.
ghost use Rattle.std.specs.Prelude.{IfOk, IsTrue};
ghost use Rattle.gr_io.specs.Texts.{is_reached};

use crate::numbers::at;
use crate::{loads, plans};
use gr_io::{MemoryShelf, Shelf, Slot};
use ispd_reader::read_design;
use std::alloc::{AllocError, Global};
use std::io;

/// Prints what a line asks for of the design of this text.
pub(crate) fn tell<R: Print>(
    rt: &R,
    alloc: Global,
    text: &str,
    command: &str,
    numbers: &[u64],
) -> io::Result<()> {
    let mut shelf = reached(alloc, text)?;
    let Ok(design) = read_design(alloc, &mut shelf) else {
        return println!(rt; "no design");
    };
    if design.nets() == 0 || !design.routed(0) {
        return println!(rt; "no net");
    }
    match command {
        "capacity" | "charge" | "marks" | "loads" => {
            loads::tell(rt, alloc, &design, command, numbers)
        }
        _ => plans::tell(rt, alloc, &design, command, at(numbers, 0)),
    }
}

/// A shelf on which this text was reached.
fn reached(alloc: Global, text: &str) -> Result<MemoryShelf, AllocError>
    ensures { IfOk result (λ shelf. IsTrue (is_reached shelf Slot.Design)) }
{
    let mut shelf = MemoryShelf::new(alloc, Vec::new(alloc));
    shelf.hold(alloc, "text", text.as_bytes())?;
    let Ok(()) = shelf.reach(alloc, Slot::Design, "text") else {
        return Err(AllocError);
    };
    Ok(shelf)
}
