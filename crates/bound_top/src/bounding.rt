//! The command that bounds what routers can do on a design.
ghost use Rattle.std.specs.Prelude.{◌<◌, ◌≤◌, None, IfOk};
ghost use Rattle.gr_io.specs.Devices.{device_of, reading_of};
ghost use Rattle.command_form.specs.Leaving.{LeavesOut, WritesOne};
ghost use Rattle.command_form.specs.declared.stop.Outcome.TheVariants.{Whole};
ghost use Rattle.bound_top.specs.Bounding.{bounding, ArePriceLines, Hold, IsBoundsText, IsUnwritten};

use command_form::{Outcome, Stop, open_design};
use cut_bounds::{Bounds, bounds_of, bounds_text};
use gr_base::Design;
use gr_io::{Shelf, Sink, write_whole};
use gr_text::Text;
use price_bounds::{Floor, price_bounds, prices_text};
use std::alloc::{AllocError, Global};
use std::thread::Threads;

/// Reads the design of this name, and writes on out what no solution of it can be better in. A via edge
/// counts as `via_cost` wire edges, at most 1,000. With steps, prices are moved as often for each of three
/// further bounds, by so many workers.
pub(crate) fn read_and_bound<R: Threads + Sync, S: Shelf, O: Sink>(
    rt: &R,
    alloc: Global,
    shelf: &mut S,
    out: &mut O,
    design: &str,
    via_cost: u32,
    steps: u32,
    workers: u32,
) -> Result<Outcome, Stop>
    requires via_cost { via_cost ≤ 1000 }
    requires workers { 0 < workers }
    ensures leaves { LeavesOut (bounding design.now via_cost steps)
        (reading_of S.tells S.held S.faults S.misses shelf.old shelf.new)
        (device_of O.tells O.faults O.written out.old out.new)
        None result }
    ensures unwritten { IsUnwritten (device_of O.tells O.faults O.written out.old out.new) result }
{
    let design = open_design(alloc, shelf, design)?;
    write_bounds(rt, alloc, out, &design, via_cost, steps, workers)
}

/// Writes the bounds of a design on out.
fn write_bounds<R: Threads + Sync, O: Sink>(
    rt: &R,
    alloc: Global,
    out: &mut O,
    design: &Design,
    via_cost: u32,
    steps: u32,
    workers: u32,
) -> Result<Outcome, Stop>
    requires via_cost { via_cost ≤ 1000 }
    requires workers { 0 < workers }
    ensures { WritesOne (IsBoundsText design.now via_cost steps) (λ stop. ⊥)
        (device_of O.tells O.faults O.written out.old out.new)
        result }
{
    let Ok(text) = text_of(rt, alloc, design, via_cost, steps, workers) else {
        return Err(Stop::NoMemory);
    };
    match write_whole(out, text.bytes()) {
        Ok(()) => Ok(Outcome::Whole),
        Err(_) => Err(Stop::WriteFailed),
    }
}

/// The text of the bounds of a design. The only error is want of memory.
fn text_of<R: Threads + Sync>(
    rt: &R,
    alloc: Global,
    design: &Design,
    via_cost: u32,
    steps: u32,
    workers: u32,
) -> Result<Text, AllocError>
    requires via_cost { via_cost ≤ 1000 }
    requires workers { 0 < workers }
    ensures { IfOk result (IsBoundsText design.now via_cost steps Whole) }
{
    let bounds = bounds_of(alloc, design, via_cost)?;
    let further = price_lines(rt, alloc, design, &bounds, via_cost, steps, workers)?;
    let text = bounds_text(alloc, &bounds, further.bytes())?;
    Ok(text)
}

/// The lines of the bounds by prices: none without steps. The only error is want of memory.
fn price_lines<R: Threads + Sync>(
    rt: &R,
    alloc: Global,
    design: &Design,
    bounds: &Bounds,
    via_cost: u32,
    steps: u32,
    workers: u32,
) -> Result<Text, AllocError>
    requires via_cost { via_cost ≤ 1000 }
    requires workers { 0 < workers }
    requires bounds { Hold design.now via_cost bounds.now }
    ensures { IfOk result (ArePriceLines design.now via_cost bounds.now steps) }
{
    if steps == 0 {
        return Ok(Text::new(alloc));
    }
    let floor = Floor {
        overflow: bounds.overflow(),
        usable_wirelength: bounds.usable_wirelength(),
    };
    let prices = price_bounds(rt, alloc, design, via_cost, steps, workers, floor)?;
    let lines = prices_text(alloc, prices)?;
    Ok(lines)
}
