//! The command that gives the runs of a solution their tracks.
ghost use Rattle.std.specs.Prelude.{None};
ghost use Rattle.gr_io.specs.Devices.{device_of, reading_of};
ghost use Rattle.route_reader.specs.Solutions.{IsOf, edges_by};
ghost use Rattle.command_form.specs.Leaving.{LeavesOut, WritesOne};
ghost use Rattle.text_commands.specs.Tracking.{tracking, IsPanelsText};

use command_form::{Left, Outcome, Stop, open_design, open_solution};
use gr_base::Design;
use gr_io::{Shelf, Sink, write_whole};
use route_reader::Solution;
use std::alloc::Global;

/// Carries out `panels`: reads the design and the solution of these names, gives the straight runs of
/// each row and column of tiles the fewest tracks, and writes them on out.
pub fn panels<K, S: Shelf, O: Sink>(
    alloc: Global,
    shelf: &mut S,
    out: &mut O,
    design: &str,
    solution: &str,
) -> Left<K>
    ensures { LeavesOut (tracking design.now solution.now)
        (reading_of S.tells S.held S.faults S.misses shelf.old shelf.new)
        (device_of O.tells O.faults O.written out.old out.new)
        result.kept result.end }
{
    Left {
        end: read_and_track::<K, S, O>(alloc, shelf, out, design, solution),
        kept: None,
        spent: None,
    }
}

/// Reads the design and the solution of these names, and writes the panels of the solution on out.
fn read_and_track<K, S: Shelf, O: Sink>(
    alloc: Global,
    shelf: &mut S,
    out: &mut O,
    design: &str,
    solution: &str,
) -> Result<Outcome, Stop>
    ensures { LeavesOut {K = K} (tracking design.now solution.now)
        (reading_of S.tells S.held S.faults S.misses shelf.old shelf.new)
        (device_of O.tells O.faults O.written out.old out.new)
        None result }
{
    let design = open_design(alloc, shelf, design)?;
    let solution = open_solution(alloc, shelf, &design, solution)?;
    write_panels(alloc, out, &design, &solution)
}

/// Writes the panels of a solution on out.
fn write_panels<O: Sink>(
    alloc: Global,
    out: &mut O,
    design: &Design,
    solution: &Solution,
) -> Result<Outcome, Stop>
    requires { IsOf design.now solution.now }
    ensures { WritesOne (IsPanelsText design.now (edges_by solution.now)) (λ stop. ⊥)
        (device_of O.tells O.faults O.written out.old out.new)
        result }
{
    let Ok(text) = panel_text::panels(alloc, design, solution) else {
        return Err(Stop::NoMemory);
    };
    match write_whole(out, text.bytes()) {
        Ok(()) => Ok(Outcome::Whole),
        Err(_) => Err(Stop::WriteFailed),
    }
}
