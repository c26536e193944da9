//! Goes along one line of tiles, and says what the steps cost and which cells they come to.
ghost use Rattle.std.specs.Prelude.{◌≡◌, ◌≢◌, ◌+◌, ◌*◌, ◌≤◌, ◌++◌, OnOk, unwrap_or};
ghost use mathlib.Core.List.{IsPrefix};
ghost use Rattle.cost_rules.specs.Formulas.{most_cost};
ghost use Rattle.gr_base.specs.Grid.{IsInside, gap, number_of};
ghost use Rattle.pattern_route.specs.Steps.{toward};
ghost use Rattle.pattern_route.specs.Walks.{IsFlat, step_cost};
ghost use Rattle.pattern_route.specs.Lines.{IsOn, place_on, along, leg_cost, line_cell, way_along};

use crate::line::{Axis, Line};
use cost_rules::Costs;
use gr_base::{Edge, Shape, Way};
use std::alloc::AllocError;

impl Line {
    /// The cell at a place on the line.
    pub(crate) fn cell(self, shape: Shape, place: u32) -> u32
        requires { IsOn shape self place }
        ensures { result ≡ place_on shape self place }
    {
        match self.axis {
            Axis::Columns => shape.cell_of(self.at, place, 0),
            Axis::Rows => shape.cell_of(place, self.at, 0),
        }
    }

    fn way(self) -> Way
        ensures { result ≡ way_along self.axis }
    {
        match self.axis {
            Axis::Columns => Way::North,
            Axis::Rows => Way::East,
        }
    }
}

/// One step from a number to another.
pub(crate) fn one_toward(from: u32, to: u32) -> u32
    requires { from ≢ to }
    ensures { result ≡ toward from to }
{
    if from < to { from + 1 } else { from - 1 }
}

/// What one step costs along a line to another place on it.
pub(crate) fn step_along<C: Costs>(costs: &C, shape: Shape, line: Line, from: u32, to: u32) -> u64
    requires grid { C.grid costs.now ≡ shape }
    requires flat { IsFlat shape (C.price costs.now) }
    requires from { IsOn shape line from }
    requires to { IsOn shape line to }
    requires apart { from ≢ to }
    ensures cost { let next = place_on shape line (toward from to) in
        result ≡ step_cost shape (C.price costs.now) (place_on shape line from) next }
    ensures most { result ≤ most_cost }
{
    let low = from.min(one_toward(from, to));
    let edge = Edge {
        low: line.cell(shape, low),
        way: line.way(),
    };
    match costs.cost(edge) {
        Some(cost) => cost,
        None => unreachable!(),
    }
}

/// What it costs to go along a line from one place to another.
pub(crate) fn cost_along<C: Costs>(costs: &C, shape: Shape, line: Line, from: u32, to: u32) -> u64
    requires grid { C.grid costs.now ≡ shape }
    requires flat { IsFlat shape (C.price costs.now) }
    requires from { IsOn shape line from }
    requires to { IsOn shape line to }
    ensures cost { result ≡ leg_cost shape (C.price costs.now) line from to }
    ensures most { result ≤ most_cost * gap from to }
{
    let mut cost = 0;
    let mut at = from;
    while at != to {
        cost += step_along(costs, shape, line, at, to);
        at = one_toward(at, to);
    }
    cost
}

/// Adds the cells along a line from one place to another, without the first.
pub(crate) fn push_along(
    cells: &mut Vec<u32>,
    shape: Shape,
    line: Line,
    from: u32,
    to: u32,
) -> Result<(), AllocError>
    requires from { IsOn shape line from }
    requires to { IsOn shape line to }
    ensures all { OnOk result (cells.new.items ≡ cells.old.items ++ along shape line from to) }
    ensures part { IsPrefix cells.new.items (cells.old.items ++ along shape line from to) }
{
    let mut at = from;
    while at != to {
        at = one_toward(at, to);
        cells.push(line.cell(shape, at))?;
    }
    Ok(())
}
