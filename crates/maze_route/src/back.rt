//! The walk back from a goal to the tree.
ghost use Rattle.std.specs.Prelude.{◌≡◌, ℕ, ◌<◌, length, Option, Some, IfOk, IfSome};
ghost use Rattle.std.specs.Option.{option_map};
ghost use Rattle.gr_base.specs.declared.grid.Edge.{Edge};
ghost use Rattle.maze_route.specs.Backs.{closer_of, first_closer, IsNear, IsWalkBack};
ghost use Rattle.maze_route.specs.Fields.{IsPriced};
ghost use Rattle.maze_route.specs.Labels.{label_at};
ghost use Rattle.maze_route.specs.Steps.{size_of, beside, step_of, step_to, IsSpot};

use crate::field::Field;
use crate::front::Labels;
use crate::pane::{Aim, Neighbour, Reached, Spot};
use crate::side::Side;
use crate::side::Side::{Ahead, Behind};
use crate::steps::neighbour_on;
use cost_rules::Costs;
use gr_base::{Cells, RouteTree, Way};
use std::alloc::{AllocError, Global};

/// A neighbour, if its label and the cost of the step to it make up what is left.
fn closer(labels: &Labels, left: u64, neighbour: Option<Neighbour>) -> Option<Neighbour>
    requires { IfSome neighbour (λ n. n.cell < length labels.now.costs.items) }
    ensures { (aim : Aim) → option_map (step_of aim) result ≡
        closer_of (label_at labels.now.costs.items) left (option_map (step_of aim) neighbour) }
{
    let neighbour = neighbour?;
    match labels.at(neighbour.cell) {
        Some(label) if label.checked_add(neighbour.cost) == Some(left) => Some(neighbour),
        _ => None,
    }
}

/// The neighbour on a side, likewise.
fn closer_beside<C: Costs>(
    costs: &C,
    field: &Field,
    labels: &Labels,
    spot: Spot,
    left: u64,
    side: Side,
) -> Option<Neighbour>
    requires grid { C.grid costs.now ≡ field.now.pane.grid }
    requires priced { IsPriced (C.price costs.now) field.now }
    requires spot { IsSpot field.now.pane spot }
    requires size { length labels.now.costs.items ≡ size_of field.now.pane }
    ensures { (aim : Aim) → option_map (step_of aim) result ≡ closer_of (label_at labels.now.costs.items) left
        (step_to field.now.pane (C.price costs.now) aim spot.local (beside field.now.pane.shape spot.local side)) }
{
    closer(labels, left, neighbour_on(costs, field, spot, side))
}

/// The least-numbered neighbour of a cell on a least walk to it, if there is one.
fn step_back<C: Costs>(
    costs: &C,
    field: &Field,
    labels: &Labels,
    spot: Spot,
    left: u64,
) -> Option<Neighbour>
    requires grid { C.grid costs.now ≡ field.now.pane.grid }
    requires priced { IsPriced (C.price costs.now) field.now }
    requires spot { IsSpot field.now.pane spot }
    requires size { length labels.now.costs.items ≡ size_of field.now.pane }
    ensures { (aim : Aim) → option_map (step_of aim) result ≡
        first_closer field.now.pane (C.price costs.now) aim (label_at labels.now.costs.items) spot.local left }
{
    if let Some(below) = closer_beside(costs, field, labels, spot, left, Behind(Way::Up)) {
        return Some(below);
    }
    if let Some(south) = closer_beside(costs, field, labels, spot, left, Behind(Way::North)) {
        return Some(south);
    }
    if let Some(west) = closer_beside(costs, field, labels, spot, left, Behind(Way::East)) {
        return Some(west);
    }
    if let Some(east) = closer_beside(costs, field, labels, spot, left, Ahead(Way::East)) {
        return Some(east);
    }
    if let Some(north) = closer_beside(costs, field, labels, spot, left, Ahead(Way::North)) {
        return Some(north);
    }
    closer_beside(costs, field, labels, spot, left, Ahead(Way::Up))
}

/// The least walk from a labelled cell back to the tree.
pub(crate) fn walk_back<C: Costs>(
    alloc: Global,
    costs: &C,
    field: &Field,
    tree: &RouteTree,
    labels: &Labels,
    goal: Reached,
) -> Result<Cells, AllocError>
    requires grid { C.grid costs.now ≡ field.now.pane.grid }
    requires priced { IsPriced (C.price costs.now) field.now }
    requires size { length labels.now.costs.items ≡ size_of field.now.pane }
    requires near { let label = label_at labels.now.costs.items in
        IsNear field.now.pane tree.now (C.price costs.now) label goal.cell goal.cost }
    ensures { IfOk result (IsWalkBack field.now.pane tree.now (C.price costs.now) goal.cell) }
{
    // Clauses alone speak of it.
    let _tree = tree;
    let mut cells = Cells::new(alloc);
    let mut spot = field.pane.spot(goal.cell);
    let mut left = goal.cost;
    while left > 0 {
        cells.push(spot.cell)?;
        let step = step_back(costs, field, labels, spot, left).unwrap();
        spot = field.pane.spot(step.cell);
        left -= step.cost;
    }
    cells.push(spot.cell)?;
    Ok(cells)
}
