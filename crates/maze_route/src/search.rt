//! The search for the nearest goal.
ghost use Rattle.std.specs.Prelude.{◌≡◌, ℕ, ◌+◌, ◌^◌, ◌<◌, ◌≤◌, true, length, Option, Some, IfSome, OnOk, IsTrue, if◌then◌else◌};
ghost use Rattle.std.specs.Option.{option_map};
ghost use Rattle.cost_rules.specs.Formulas.{most_cost};
ghost use Rattle.gr_base.specs.declared.grid.Edge.{Edge};
ghost use Rattle.maze_route.specs.Fields.{IsPriced};
ghost use Rattle.maze_route.specs.Labels.{label_at};
ghost use Rattle.maze_route.specs.Steps.{size_of, rest_of, IsGuide, IsSpot, Covers, least_to, step_of, pane_graph, beside, step_to};
ghost use Rattle.maze_route.specs.Kept.{IsKept};
ghost use Rattle.maze_route.specs.Search.{most_distance, is_above, HasSources, IsSearching, is_marked, HasGoal, CanReach, Finds};
ghost use Rattle.maze_route.specs.Handing.{IsReach, HandsOn};

use crate::field::Field;
use crate::front::Frontier;
use crate::pane::{Aim, Neighbour, Spot};
use crate::side::Side;
use crate::side::Side::{Ahead, Behind};
use crate::steps::{distance_to, neighbour_on};
use cost_rules::Costs;
use gr_base::{RouteTree, Way};
use std::alloc::AllocError;

/// The greatest distance. Walks that cost more are not looked for.
const MOST_DISTANCE: u64 = 1_152_921_504_606_846_976;

/// Gives a neighbour of a cell with this label a label of its own, if that is lower.
#[inline(always)]
pub(crate) fn reach(
    aim: &Aim,
    front: &mut Frontier,
    from: u64,
    neighbour: Option<Neighbour>,
) -> Result<(), AllocError>
    requires from { from ≤ most_distance }
    requires small { IfSome neighbour (λ n. n.cost ≤ most_cost) }
    requires covered { IfSome neighbour (λ n. Covers aim.now n.place) }
    requires inside { IfSome neighbour (λ n. n.cell < length front.old.labels.costs.items) }
    requires keys { IfSome neighbour (λ n. front.old.queue.last ≤ from + n.cost + least_to aim.now n.place) }
    ensures done { OnOk result (IsReach from (option_map (step_of aim.now) neighbour) front.old front.new) }
    ensures size { length front.new.labels.costs.items ≡ length front.old.labels.costs.items }
    ensures last { front.new.queue.last ≡ front.old.queue.last }
{
    let Some(neighbour) = neighbour else {
        return Ok(());
    };
    let cost = from + neighbour.cost;
    if cost > MOST_DISTANCE {
        return Ok(());
    }
    if !front.labels.lower(neighbour.cell, cost) {
        return Ok(());
    }
    // Most neighbours have a label as low: the bound is looked up where a cell is to wait.
    let rest = distance_to(aim, neighbour.place);
    front.queue.push(cost + rest, neighbour.cell)?;
    Ok(())
}

/// Hands a cell's label on to the neighbour on a side.
#[inline(always)]
fn reach_beside<C: Costs>(
    costs: &C,
    field: &Field,
    aim: &Aim,
    front: &mut Frontier,
    spot: Spot,
    from: u64,
    side: Side,
) -> Result<(), AllocError>
    requires grid { C.grid costs.now ≡ field.now.pane.grid }
    requires priced { IsPriced (C.price costs.now) field.now }
    requires guide { IsGuide field.now.pane (C.price costs.now) aim.now }
    requires spot { IsSpot field.now.pane spot }
    requires from { from ≤ most_distance }
    requires size { length front.old.labels.costs.items ≡ size_of field.now.pane }
    requires key { front.old.queue.last ≤ from + rest_of field.now.pane aim.now spot.local }
    ensures done { OnOk result (IsReach from
        (step_to field.now.pane (C.price costs.now) aim.now spot.local (beside field.now.pane.shape spot.local side))
        front.old front.new) }
    ensures size { length front.new.labels.costs.items ≡ length front.old.labels.costs.items }
    ensures last { front.new.queue.last ≡ front.old.queue.last }
{
    reach(aim, front, from, neighbour_on(costs, field, spot, side))
}

/// Hands a cell's label on to its neighbours.
fn settle<C: Costs>(
    costs: &C,
    field: &Field,
    aim: &Aim,
    front: &mut Frontier,
    spot: Spot,
    from: u64,
) -> Result<(), AllocError>
    requires grid { C.grid costs.now ≡ field.now.pane.grid }
    requires priced { IsPriced (C.price costs.now) field.now }
    requires guide { IsGuide field.now.pane (C.price costs.now) aim.now }
    requires spot { IsSpot field.now.pane spot }
    requires from { from ≤ most_distance }
    requires size { length front.old.labels.costs.items ≡ size_of field.now.pane }
    requires key { front.old.queue.last ≤ from + rest_of field.now.pane aim.now spot.local }
    ensures { OnOk result (HandsOn field.now.pane (C.price costs.now) aim.now spot.local from front.old front.new) }
{
    reach_beside(costs, field, aim, front, spot, from, Behind(Way::Up))?;
    reach_beside(costs, field, aim, front, spot, from, Behind(Way::North))?;
    reach_beside(costs, field, aim, front, spot, from, Behind(Way::East))?;
    reach_beside(costs, field, aim, front, spot, from, Ahead(Way::East))?;
    reach_beside(costs, field, aim, front, spot, from, Ahead(Way::North))?;
    reach_beside(costs, field, aim, front, spot, from, Ahead(Way::Up))?;
    Ok(())
}

/// Labels the cells of a window with the least costs of walks to them from the tree, as far as to
/// the nearest marked cell. It goes on from a frontier at which each labelled cell waits or has handed
/// its label on, and leaves such a frontier. `known` is a marked cell's label, if one has a label.
///
/// Cells wait in a queue by their label and a bound on the rest of the way, as in A* of Hart,
/// Nilsson and Raphael, "A formal basis for the heuristic determination of minimum cost paths",
/// 1968. The search goes on until every key up to the first goal's distance is taken.
pub(crate) fn search<C: Costs>(
    costs: &C,
    field: &Field,
    aim: &Aim,
    marks: &[bool],
    known: Option<u64>,
    tree: &RouteTree,
    front: &mut Frontier,
) -> Result<(), AllocError>
    requires grid { C.grid costs.now ≡ field.now.pane.grid }
    requires priced { IsPriced (C.price costs.now) field.now }
    requires guide { IsGuide field.now.pane (C.price costs.now) aim.now }
    requires size { length front.old.labels.costs.items ≡ size_of field.now.pane }
    requires sources { HasSources (pane_graph field.now.pane tree.now (C.price costs.now))
        (label_at front.old.labels.costs.items) }
    requires searching { IsSearching (pane_graph field.now.pane tree.now (C.price costs.now))
        (rest_of field.now.pane aim.now) (label_at front.old.labels.costs.items) front.old.queue.pairs
        (size_of field.now.pane) }
    requires known { IfSome known (HasGoal marks.now (label_at front.old.labels.costs.items)) }
    requires near { IfSome known (λ distance. distance ≤ most_distance) }
    requires marks { length marks.now ≡ size_of field.now.pane }
    requires aim { (cell : ℕ) → is_marked marks.now cell ≡ true → rest_of field.now.pane aim.now cell ≡ 0 }
    requires goal { CanReach (pane_graph field.now.pane tree.now (C.price costs.now)) marks.now }
    ensures found { OnOk result (let label = label_at front.new.labels.costs.items in
        Finds (pane_graph field.now.pane tree.now (C.price costs.now)) (rest_of field.now.pane aim.now) marks.now
        label) }
    ensures size { OnOk result (length front.new.labels.costs.items ≡ size_of field.now.pane) }
    ensures kept { OnOk result (IsKept (pane_graph field.now.pane tree.now (C.price costs.now))
        (size_of field.now.pane) front.new) }
{
    // Clauses alone speak of it.
    let _tree = tree;
    let mut nearest = known;
    while let Some((key, cell)) = front.queue.pop() {
        if is_past(nearest, key) {
            front.queue.push(key, cell)?;
            return Ok(());
        }
        let spot = field.pane.spot(cell);
        let label = front.labels.at(cell).unwrap();
        if label + distance_to(aim, spot.place) < key {
            continue;
        }
        nearest = nearest_with(nearest, marks[cell as usize], key);
        settle(costs, field, aim, front, spot, label)?;
    }
    Ok(())
}

/// The nearest goal's distance after a cell with this key is settled.
fn nearest_with(nearest: Option<u64>, marked: bool, key: u64) -> Option<u64>
    ensures { result ≡ (if marked then Some key else nearest) }
{
    if marked { Some(key) } else { nearest }
}

/// Whether the key is greater than the nearest goal's distance, if one is known.
fn is_past(nearest: Option<u64>, key: u64) -> bool
    ensures { result ≡ is_above nearest key }
{
    match nearest {
        Some(distance) => key > distance,
        None => false,
    }
}
