//! The texts of a command, as they are opened and read.
ghost use Rattle.std.specs.Prelude.{◌≡◌, ℕ, List, IsTrue, IfOk, OnOk};
ghost use Rattle.gr_base.specs.Designs.{IsDesign};
ghost use Rattle.gr_io.specs.declared.shelf.Slot.{Slot};
ghost use Rattle.gr_io.specs.declared.shelf.Slot.TheVariants.{Design as DesignSlot, Library as LibrarySlot, Solution as SolutionSlot};
ghost use Rattle.rc_library.specs.Libraries.{IsLibraryOf};
ghost use Rattle.route_reader.specs.Solutions.{IsOf};
ghost use Rattle.gr_io.specs.Devices.{reading_of};
ghost use Rattle.command_form.specs.Opening.{IsReached, Opens, IsCovered};
ghost use Rattle.command_form.specs.Said.{design_fault, design_said, library_fault, library_said, solution_fault, solution_said};

use crate::stop::Stop;
use gr_base::Design;
use gr_io::{ReachError, Shelf, Slot};
use ispd_reader::{DesignError, read_design};
use rc_library::{Library, LibraryError, read_library};
use route_reader::{Solution, SolutionError, read_solution};
use std::alloc::Global;

/// What a reader gives of a text, where each error of its own is why a command stops.
macro_rules! read_or_stop {
    ($text:expr, $read:expr, $error:ident) => {
        match $read {
            Ok(read) => Ok(read),
            Err($error::Fault { fault, token }) => Err(Stop::Fault {
                text: $text,
                number: fault.number(),
                token,
            }),
            Err($error::Failed) => Err(Stop::ReadFailed),
            Err($error::NoMemory) => Err(Stop::NoMemory),
        }
    };
}

/// Reads the design that is held under a name.
pub fn open_design<S: Shelf>(alloc: Global, shelf: &mut S, name: &str) -> Result<Design, Stop>
    ensures opens { Opens (reading_of S.tells S.held S.faults S.misses shelf.old shelf.new)
        (S.held shelf.old DesignSlot name.now) (design_said (S.held shelf.old) name.now) design_fault
        result }
    ensures held { (slot : Slot) → (other : List ℕ) → S.held shelf.new slot other ≡ S.held shelf.old slot other }
    ensures design { IfOk result IsDesign }
{
    reach(alloc, shelf, Slot::Design, name)?;
    read_or_stop!(Slot::Design, read_design(alloc, shelf), DesignError)
}

/// Reads the library that is held under a name, for this design.
pub fn open_library<S: Shelf>(
    alloc: Global,
    shelf: &mut S,
    design: &Design,
    name: &str,
) -> Result<Library, Stop>
    ensures opens { Opens (reading_of S.tells S.held S.faults S.misses shelf.old shelf.new)
        (S.held shelf.old LibrarySlot name.now) (library_said (S.held shelf.old) name.now design.now) library_fault
        result }
    ensures held { (slot : Slot) → (other : List ℕ) → S.held shelf.new slot other ≡ S.held shelf.old slot other }
    ensures library { IfOk result (IsLibraryOf design.now) }
{
    reach(alloc, shelf, Slot::Library, name)?;
    read_or_stop!(
        Slot::Library,
        read_library(alloc, shelf, design),
        LibraryError
    )
}

/// Reads the solution that is held under a name, for this design.
pub fn open_solution<S: Shelf>(
    alloc: Global,
    shelf: &mut S,
    design: &Design,
    name: &str,
) -> Result<Solution, Stop>
    ensures opens { Opens (reading_of S.tells S.held S.faults S.misses shelf.old shelf.new)
        (S.held shelf.old SolutionSlot name.now) (solution_said (S.held shelf.old) name.now design.now) solution_fault
        result }
    ensures solution { IfOk result (IsOf design.now) }
    ensures covered { IfOk result
        (λ s. IsTrue S.tells → IsCovered design.now (S.held shelf.old SolutionSlot name.now) s) }
{
    reach(alloc, shelf, Slot::Solution, name)?;
    read_or_stop!(
        Slot::Solution,
        read_solution(alloc, shelf, design),
        SolutionError
    )
}

/// Opens the text that is held under a name.
fn reach<S: Shelf>(alloc: Global, shelf: &mut S, slot: Slot, name: &str) -> Result<(), Stop>
    ensures reaches { IsReached (reading_of S.tells S.held S.faults S.misses shelf.old shelf.new)
        (S.held shelf.old slot name.now) (S.left shelf.new slot) result }
    ensures reached { OnOk result (IsTrue (S.reached shelf.new slot)) }
    ensures held { (other : Slot) → (bytes : List ℕ) → S.held shelf.new other bytes ≡ S.held shelf.old other bytes }
{
    match shelf.reach(alloc, slot, name) {
        Ok(()) => Ok(()),
        Err(ReachError::NoMemory) => Err(Stop::NoMemory),
        Err(ReachError::Missing | ReachError::Failed) => Err(Stop::ReadFailed),
    }
}
