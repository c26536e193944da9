//! The public call.
ghost use Rattle.std.specs.Prelude.{◌≡◌, None, map, string_bytes};
ghost use Rattle.gr_io.specs.Devices.{Device, device_of, reading_of, IsUntouched};
ghost use Rattle.command_form.specs.Ends.{LeavesFor};
ghost use Rattle.command_form.specs.Statuses.{IsByStatus};
ghost use Rattle.word_reader.specs.Orders.{order_of};
ghost use Rattle.word_reader.specs.declared.program.Program.TheVariants.{Grbound};
ghost use Rattle.bound_top.specs.Bounding.{asked_by, IsUnwritten, LeavesNoPart};

use crate::bounding::read_and_bound;
use command_form::{Outcome, Stop, finish};
use gr_io::{Shelf, Sink};
use std::alloc::Global;
use std::thread::Threads;
use word_reader::{Order, Program, read_words};

/// Carries out `DESIGN [--steps K] [--workers N] [--via-cost V]`: reads the design of that name, and writes on
/// out what no edge sets that join its routed nets can be below, in overflow and in wirelength, and the
/// fullest walls. With steps, also what they can't be below by prices, which are moved K times for each
/// figure; N workers price nets side by side, and write the same for every N.
///
/// Status 0: done. 2: the words ask for nothing. 3: the design's text is at fault. 6: a read failed,
/// or the name is missing. 7: a write failed. 8: out of memory. At 2 to 6 and at 8 a line on err tells
/// it.
pub fn bound<R: Threads + Sync, S: Shelf, O: Sink, E: Sink>(
    rt: &R,
    alloc: Global,
    words: &[String],
    shelf: &mut S,
    out: &mut O,
    err: &mut E,
) -> u8
    ensures by_status { IsByStatus Grbound (asked_by (order_of Grbound (map string_bytes words.now)))
        (reading_of S.tells S.held S.faults S.misses shelf.old shelf.new)
        (device_of O.tells O.faults O.written out.old out.new)
        (device_of E.tells E.faults E.written err.old err.new)
        None result }
    ensures no_part { LeavesNoPart (device_of O.tells O.faults O.written out.old out.new) result }
{
    let end = carry_out(rt, alloc, words, shelf, out);
    finish(alloc, Program::Grbound, err, end)
}

/// Carries out what the words ask for, and tells no stop.
fn carry_out<R: Threads + Sync, S: Shelf, O: Sink>(
    rt: &R,
    alloc: Global,
    words: &[String],
    shelf: &mut S,
    out: &mut O,
) -> Result<Outcome, Stop>
    ensures leaves { (err : Device) → IsUntouched err →
        LeavesFor (asked_by (order_of Grbound (map string_bytes words.now)))
        (reading_of S.tells S.held S.faults S.misses shelf.old shelf.new)
        (device_of O.tells O.faults O.written out.old out.new)
        err None result }
    ensures unwritten { IsUnwritten (device_of O.tells O.faults O.written out.old out.new) result }
{
    match read_words(Program::Grbound, words) {
        Ok(
            Order::Bound {
                design,
                via_cost,
                steps,
                workers,
            },
        ) => { read_and_bound(rt, alloc, shelf, out, design, via_cost, steps, workers) }
        _ => Err(Stop::Usage),
    }
}
