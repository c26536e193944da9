//! Finds the flat walk between two tiles: by the least crossing column, unless a crossing row costs less.
ghost use Rattle.std.specs.Prelude.{◌≡◌, ◌<◌, OnOk};
ghost use mathlib.Core.List.{IsPrefix};
ghost use Rattle.gr_base.specs.Grid.{IsInside, cells_of, place_at};
ghost use Rattle.pattern_route.specs.Walks.{IsFlat, walk_cost, flat_walks, flat_walk, first_least, IsFirstLeast, IsDirect};
ghost use Rattle.pattern_route.specs.Lines.{IsCrossing, walk_at};

use crate::crossing::{least_crossing, least_with, put_walk};
use crate::line::{Axis, Crossing, Span};
use cost_rules::Costs;
use gr_base::{Cell, Shape};
use std::alloc::AllocError;

/// The flat walk from one tile to another on a grid of one layer whose wire edges all have a cost.
///
/// The walks go along the first tile's row to a column, along it to the second tile's row, and
/// along that row to the second tile, by each column from the first tile's to the second's; and
/// then likewise by each row. Of them all the first of least cost is taken, and put in place of
/// what the list `cells` holds. The only error is want of memory, and leaves the list with the first
/// cells of the walk.
///
/// After Kastner, Bozorgzadeh and Sarrafzadeh, "Pattern routing: use and theory for increasing
/// predictability and avoiding coupling", 2002. The time is linear in the product of the sides of
/// the tiles' box.
pub fn pattern<C: Costs>(
    costs: &C,
    shape: Shape,
    a: u32,
    b: u32,
    cells: &mut Vec<u32>,
) -> Result<(), AllocError>
    requires grid { C.grid costs.now ≡ shape }
    requires flat { IsFlat shape (C.price costs.now) }
    requires a { a < cells_of shape }
    requires b { b < cells_of shape }
    ensures walk { OnOk result (cells.new.items ≡ flat_walk shape (C.price costs.now) a b) }
    ensures part { IsPrefix cells.new.items (flat_walk shape (C.price costs.now) a b) }
    ensures first { let walks = flat_walks shape (place_at shape a) (place_at shape b) in
        OnOk result (IsFirstLeast (walk_cost shape (C.price costs.now)) walks cells.new.items) }
    ensures direct { OnOk result (IsDirect shape a b cells.new.items) }
{
    let crossing = best_crossing(costs, shape, shape.place_of(a), shape.place_of(b));
    put_walk(cells, shape, crossing)
}

/// The crossing of the flat walk: by the least crossing column, or by a crossing row that costs less.
fn best_crossing<C: Costs>(costs: &C, shape: Shape, from: Cell, to: Cell) -> Crossing
    requires grid { C.grid costs.now ≡ shape }
    requires flat { IsFlat shape (C.price costs.now) }
    requires from { IsInside shape from }
    requires to { IsInside shape to }
    ensures crossing { IsCrossing shape (C.price costs.now) result }
    ensures first { walk_at shape result
        ≡ first_least (walk_cost shape (C.price costs.now)) (flat_walks shape from to) }
{
    let by_column = least_crossing(costs, shape, Span::new(Axis::Columns, from, to));
    least_with(costs, shape, by_column, Span::new(Axis::Rows, from, to))
}
