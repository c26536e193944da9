//! The numbers of a segment, and the run that they name.
ghost use Rattle.std.specs.Prelude.{◌≡◌, ◌-◌, ◌<◌, ◌≤◌, ◌≤ℤ◌, nat_lt, pos, IfOk, IfSome};
ghost use Rattle.gr_base.specs.Limits.{most_id};
ghost use Rattle.gr_base.specs.Grid.{IsInside};
ghost use Rattle.solution_text.specs.Grammar.{is_straight, segment};
ghost use Rattle.route_reader.specs.Segments.{run_of_ends};
ghost use Rattle.route_reader.specs.Solutions.{IsRun};
ghost use Rattle.route_reader.specs.Spots.{are_whole, spot_in, place_of, run_of_spots, run_of_places};

use crate::segment::{Points, Written, ends_of};
use gr_base::{Cell, Design, MOST_COORDINATE, MOST_ID, Shape};
use gr_text::{is_whole, whole_of};
use solution_text::{Run, SolutionFault};

/// The end of a segment, in the units of the design. Layers count from 1.
#[derive(Clone, Copy)]
pub(crate) struct Spot {
    x: i64,
    y: i64,
    layer: u32,
}

fn are_whole(point: Written<'_>) -> bool
    ensures { result ≡ are_whole point.entry }
{
    is_whole(point.x) && is_whole(point.y) && is_whole(point.layer)
}

/// The end of a segment that is written, if its numbers are in range.
fn spot_in(point: Written<'_>) -> Option<Spot>
    ensures { result ≡ spot_in point.entry }
{
    let x = whole_of(point.x, -MOST_COORDINATE, MOST_COORDINATE)?;
    let y = whole_of(point.y, -MOST_COORDINATE, MOST_COORDINATE)?;
    let layer = whole_of(point.layer, 0, i64::from(MOST_ID))?;
    Some(Spot {
        x,
        y,
        layer: layer as u32,
    })
}

/// The place of the grid in which a segment's end lies, if it lies on the chip.
fn place_of(design: &Design, spot: Spot) -> Option<Cell>
    ensures place { result ≡ place_of design.now.frame spot }
    ensures inside { IfSome result (IsInside design.now.frame.shape) }
{
    let x = design.tile_x(spot.x)?;
    let y = design.tile_y(spot.y)?;
    if spot.layer < 1 || spot.layer > design.frame().shape.layers() {
        return None;
    }
    Some(Cell {
        x,
        y,
        layer: spot.layer - 1,
    })
}

/// Whether two places differ in at most one of column, row and layer.
fn is_straight(a: Cell, b: Cell) -> bool
    ensures { result ≡ is_straight a b }
{
    (a.x == b.x && a.y == b.y)
        || (a.x == b.x && a.layer == b.layer)
        || (a.y == b.y && a.layer == b.layer)
}

/// The run between two places.
fn run_of_places(shape: Shape, from: Cell, to: Cell) -> Result<Run, SolutionFault>
    requires from { IsInside shape from }
    requires to { IsInside shape to }
    ensures run { result ≡ run_of_places shape from to }
    ensures of { IfOk result (IsRun shape) }
{
    if !is_straight(from, to) {
        return Err(SolutionFault::Slanted);
    }
    Ok(Run {
        from: shape.cell_of(from.x, from.y, from.layer),
        to: shape.cell_of(to.x, to.y, to.layer),
    })
}

/// The run between two ends whose numbers are in range.
fn run_of_spots(design: &Design, from: Spot, to: Spot) -> Result<Run, SolutionFault>
    ensures run { result ≡ run_of_spots design.now.frame from to }
    ensures of { IfOk result (IsRun design.now.frame.shape) }
{
    let Some(from) = place_of(design, from) else {
        return Err(SolutionFault::Outside);
    };
    let Some(to) = place_of(design, to) else {
        return Err(SolutionFault::Outside);
    };
    run_of_places(design.frame().shape, from, to)
}

/// The run between two ends that are written.
fn run_of_ends(design: &Design, ends: Points<'_>) -> Result<Run, SolutionFault>
    ensures run { result ≡ run_of_ends design.now.frame (Some ends.entry) }
    ensures of { IfOk result (IsRun design.now.frame.shape) }
{
    if !are_whole(ends.from) || !are_whole(ends.to) {
        return Err(SolutionFault::Form);
    }
    let Some(from) = spot_in(ends.from) else {
        return Err(SolutionFault::Number);
    };
    let Some(to) = spot_in(ends.to) else {
        return Err(SolutionFault::Number);
    };
    run_of_spots(design, from, to)
}

/// The run that a segment writes. The form of the whole token is checked first, then all numbers,
/// then whether both ends lie on the chip, then whether they differ in at most one of column, row
/// and layer.
pub(crate) fn segment(design: &Design, token: &[u8]) -> Result<Run, SolutionFault>
    ensures run { result ≡ segment design.now.frame token.now }
    ensures of { IfOk result (IsRun design.now.frame.shape) }
{
    let Some(ends) = ends_of(token) else {
        return Err(SolutionFault::Form);
    };
    run_of_ends(design, ends)
}
