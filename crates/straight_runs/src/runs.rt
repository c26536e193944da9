//! Gathers maximal straight runs in a list of the caller's; it knows of edges, but neither of nets nor of designs.
ghost use Rattle.std.specs.Prelude.{◌≡◌, ℕ, ◌-◌, ◌<◌, ◌++◌, ◌&&◌, not, nat_le, IsTrue, All, [], OnOk, OnErr};
ghost use Rattle.std.specs.List.Sorted.{IsStrictlyIncreasing};
ghost use Rattle.gr_base.specs.Grid.{cells_of, has_edge};
ghost use Rattle.gr_base.specs.EdgeSets.{set_of};
ghost use Rattle.solution_text.specs.Runs.{reach, runs_of_way, runs_of};
ghost use Rattle.straight_runs.specs.Lows.{is_low, edges_from, AreLows};
ghost use Rattle.straight_runs.specs.Ends.{LiesInside};

use crate::lows::{gather_lows, has_low};
use gr_base::{Edge, Shape, Way};
use solution_text::Run;
use std::alloc::AllocError;

/// Whether no edge comes to this cell from the cell a stride before it.
fn is_first(lows: &[u32], stride: u32, cell: u32) -> bool
    requires { IsStrictlyIncreasing lows.now }
    ensures { result ≡ not (nat_le stride cell && is_low lows.now (cell - stride)) }
{
    cell < stride || !has_low(lows, cell - stride)
}

/// The cell at which the run from a cell ends: the first that is no low end.
fn end_of_run(lows: &[u32], shape: Shape, way: Way, low: u32) -> u32
    requires lows { AreLows shape way lows.now }
    requires low { low < cells_of shape }
    ensures end { result ≡ reach shape (edges_from way lows.now) way (cells_of shape) low }
    ensures cell { result < cells_of shape }
{
    let mut end = low;
    while has_low(lows, end) {
        end = shape.high(Edge { low: end, way });
    }
    end
}

/// Adds the maximal runs of the edges that go this way from these low ends. At an error the first of
/// them may have been added.
fn push_runs(runs: &mut Vec<Run>, lows: &[u32], shape: Shape, way: Way) -> Result<(), AllocError>
    requires { AreLows shape way lows.now }
    ensures { OnOk result (runs.new.items ≡ runs.old.items ++ runs_of_way shape (edges_from way lows.now) way) }
{
    let stride = shape.stride(way);
    for low in lows {
        if !is_first(lows, stride, *low) {
            continue;
        }
        let to = end_of_run(lows, shape, way, *low);
        runs.push(Run { from: *low, to })?;
    }
    Ok(())
}

/// Adds the maximal straight runs of the edges that go this way, each once, rising by their low ends.
/// An edge may stand among the edges more than once. `lows` is room that is used anew. The only error
/// is want of memory. At an error the first of the runs may have been added. The time is that of
/// sorting the edges.
pub fn push_way(
    runs: &mut Vec<Run>,
    lows: &mut Vec<u32>,
    shape: Shape,
    edges: &[Edge],
    way: Way,
) -> Result<(), AllocError>
    requires { All (λ e. IsTrue (has_edge shape e)) edges.now }
    ensures { OnOk result (runs.new.items ≡ runs.old.items ++ runs_of_way shape (set_of edges.now) way) }
{
    gather_lows(lows, edges, way)?;
    push_runs(runs, lows, shape, way)?;
    Ok(())
}

/// Replaces the list by the maximal runs of the edges, way by way.
fn gather_ways(
    runs: &mut Vec<Run>,
    lows: &mut Vec<u32>,
    shape: Shape,
    edges: &[Edge],
) -> Result<(), AllocError>
    requires { All (λ e. IsTrue (has_edge shape e)) edges.now }
    ensures { OnOk result (runs.new.items ≡ runs_of shape (set_of edges.now)) }
{
    runs.clear();
    push_way(runs, lows, shape, edges, Way::East)?;
    push_way(runs, lows, shape, edges, Way::North)?;
    push_way(runs, lows, shape, edges, Way::Up)?;
    Ok(())
}

/// Replaces the list by the maximal straight runs of these edges, each once: East runs first, then
/// North, then Up, and within a way rising by their low ends. An edge may stand among the edges more
/// than once. `lows` is room that is used anew. The only error is want of memory, which leaves both
/// lists empty. The time is that of sorting the edges.
pub fn gather_runs(
    runs: &mut Vec<Run>,
    lows: &mut Vec<u32>,
    shape: Shape,
    edges: &[Edge],
) -> Result<(), AllocError>
    requires { All (λ e. IsTrue (has_edge shape e)) edges.now }
    ensures runs { OnOk result (runs.new.items ≡ runs_of shape (set_of edges.now)) }
    ensures inside { OnOk result (All (LiesInside shape) runs.new.items) }
    ensures emptied { OnErr result ((runs.new.items ≡ []) × (lows.new.items ≡ [])) }
{
    match gather_ways(runs, lows, shape, edges) {
        Ok(()) => Ok(()),
        Err(error) => {
            runs.clear();
            lows.clear();
            Err(error)
        }
    }
}
