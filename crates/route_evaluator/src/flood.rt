//! The cells to which the edges of a net lead from the cell of its first pin.
ghost use Rattle.std.specs.Prelude.{◌≡◌, ◌<◌, ◌≤◌, ◌*◌, ◌↔◌, ℕ, length, All, IfOk, OnOk, IsTrue};
ghost use Rattle.gr_base.specs.EdgeSets.{IsJoined};
ghost use Rattle.gr_base.specs.Grid.{cells_of};
ghost use Rattle.solution_text.specs.Runs.{LieIn};
ghost use Rattle.route_evaluator.specs.EdgeNumbers.{edges_numbered};
ghost use Rattle.route_evaluator.specs.NumberSets.{empty_set};
ghost use Rattle.route_evaluator.specs.Floods.{spread_along, IsFlood};

use crate::edge_numbers::edge_number;
use crate::number_set::NumberSet;
use crate::reached::Reached;
use gr_base::{Edge, Shape, Way};
use std::alloc::AllocError;

/// Reaches the neighbours of a cell to which an edge of the set leads this way, or back this way.
fn spread_along(
    cells: &mut NumberSet,
    edges: &NumberSet,
    shape: Shape,
    way: Way,
    cell: u32,
) -> Result<(), AllocError>
    requires edges { edges.now.bound ≡ 3 * cells_of shape }
    requires grid { LieIn shape (edges_numbered edges.now.numbers) }
    requires cells { cells.old.bound ≡ cells_of shape }
    requires cell { cell < cells_of shape }
    ensures bound { OnOk result (cells.new.bound ≡ cells.old.bound) }
    ensures cells { OnOk result
        (cells.new.numbers ≡ spread_along shape (edges_numbered edges.now.numbers) way cell cells.old.numbers) }
{
    let onward = Edge { low: cell, way };
    if edges.has(edge_number(onward)) {
        cells.insert(shape.high(onward))?;
    }
    let stride = shape.stride(way);
    if stride <= cell {
        let low = cell - stride;
        if edges.has(edge_number(Edge { low, way })) {
            cells.insert(low)?;
        }
    }
    Ok(())
}

/// Reaches the cells to which walks along the edges of the set lead from a cell, in the order of a
/// breadth-first search.
pub(crate) fn flood(
    reached: &mut Reached,
    edges: &NumberSet,
    shape: Shape,
    first: u32,
) -> Result<(), AllocError>
    requires edges { edges.now.bound ≡ 3 * cells_of shape }
    requires grid { LieIn shape (edges_numbered edges.now.numbers) }
    requires reached { reached.old.cells ≡ empty_set (cells_of shape) }
    requires first { first < cells_of shape }
    ensures bound { OnOk result (reached.new.cells.bound ≡ cells_of shape) }
    ensures flood { OnOk result (IsFlood shape (edges_numbered edges.now.numbers) first
        (length reached.new.cells.numbers) reached.new.cells.numbers reached.new.parents.items) }
{
    reached.parents.clear();
    reached.cells.insert(first)?;
    reached.parents.push(0)?;
    let mut at = 0;
    while at < reached.cells.numbers().len() {
        let cell = reached.cells.numbers()[at];
        spread_along(&mut reached.cells, edges, shape, Way::East, cell)?;
        spread_along(&mut reached.cells, edges, shape, Way::North, cell)?;
        spread_along(&mut reached.cells, edges, shape, Way::Up, cell)?;
        reached
            .parents
            .resize(reached.cells.numbers().len(), at as u32)?;
        at += 1;
    }
    Ok(())
}

/// Whether walks along the edges of the set lead from the first of these cells to each of them. No
/// cell is reached before it, and none behind it.
pub(crate) fn joins(
    reached: &mut Reached,
    edges: &NumberSet,
    shape: Shape,
    pins: &[u32],
) -> Result<bool, AllocError>
    requires edges { edges.now.bound ≡ 3 * cells_of shape }
    requires grid { LieIn shape (edges_numbered edges.now.numbers) }
    requires reached { reached.old.cells ≡ empty_set (cells_of shape) }
    requires pins { All (λ pin. pin < cells_of shape) pins.now }
    requires driver { 0 < length pins.now }
    ensures joined { IfOk result
        (λ joined. IsTrue joined ↔ IsJoined shape (edges_numbered edges.now.numbers) pins.now) }
    ensures clear { OnOk result (reached.new.cells ≡ reached.old.cells) }
{
    flood(reached, edges, shape, pins[0])?;
    let joined = reached.cells.has_all(pins);
    reached.cells.clear();
    Ok(joined)
}
