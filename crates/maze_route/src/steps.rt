//! Steps from a cell to its neighbours.
ghost use Rattle.std.specs.Prelude.{◌≡◌, ◌^◌, ◌<◌, ◌≤◌, length, IsTrue, IfSome};
ghost use Rattle.std.specs.Option.{option_map};
ghost use Rattle.cost_rules.specs.Formulas.{most_cost};
ghost use Rattle.gr_base.specs.Grid.{IsInside, beyond};
ghost use Rattle.gr_base.specs.Limits.{most_cells};
ghost use Rattle.maze_route.specs.Fields.{IsPriced};
ghost use Rattle.maze_route.specs.Steps.{IsSpot, has_room_behind, before, ahead_of, behind_of, beside, size_of, Covers, least_to, step_of, step_to};

use crate::field::Field;
use crate::pane::{Aim, Neighbour, Spot};
use crate::side::Side;
use cost_rules::Costs;
use gr_base::{Cell, Edge, Way};

/// Whether there is a cell next to this one against the way.
fn has_behind(place: Cell, way: Way) -> bool
    ensures { result ≡ has_room_behind place way }
{
    match way {
        Way::East => place.x > 0,
        Way::North => place.y > 0,
        Way::Up => place.layer > 0,
    }
}

/// The next place along the way.
fn one_on(place: Cell, way: Way) -> Cell
    requires x { place.x < most_cells }
    requires y { place.y < most_cells }
    requires layer { place.layer < most_cells }
    ensures { result ≡ beyond place way }
{
    match way {
        Way::East => Cell {
            x: place.x + 1,
            ..place
        },
        Way::North => Cell {
            y: place.y + 1,
            ..place
        },
        Way::Up => Cell {
            layer: place.layer + 1,
            ..place
        },
    }
}

/// The next place against the way.
fn one_back(place: Cell, way: Way) -> Cell
    requires { IsTrue (has_room_behind place way) }
    ensures { result ≡ before place way }
{
    match way {
        Way::East => Cell {
            x: place.x - 1,
            ..place
        },
        Way::North => Cell {
            y: place.y - 1,
            ..place
        },
        Way::Up => Cell {
            layer: place.layer - 1,
            ..place
        },
    }
}

/// What a walk between a place and the box of an aim costs at least.
#[inline(always)]
pub(crate) fn distance_to(aim: &Aim, place: Cell) -> u64
    requires { Covers aim.now place }
    ensures least { result ≡ least_to aim.now place }
    ensures small { result < 2 ^ 53 }
{
    let layers = u64::from(place.layer.saturating_sub(aim.top));
    aim.columns[place.x as usize] + aim.rows[place.y as usize] + layers * aim.via
}

/// The next cell along the way, if an edge leads there.
#[inline(always)]
fn ahead<C: Costs>(costs: &C, field: &Field, spot: Spot, way: Way) -> Option<Neighbour>
    requires grid { C.grid costs.now ≡ field.now.pane.grid }
    requires priced { IsPriced (C.price costs.now) field.now }
    requires spot { IsSpot field.now.pane spot }
    ensures step { (aim : Aim) → option_map (step_of aim) result ≡
        step_to field.now.pane (C.price costs.now) aim spot.local (ahead_of field.now.pane.shape spot.local way) }
    ensures cost { IfSome result (λ n. n.cost ≤ most_cost) }
    ensures cell { IfSome result (λ n. n.cell < size_of field.now.pane) }
    ensures inside { IfSome result (λ n. IsInside field.now.pane.shape n.place) }
{
    if !field.pane.shape.has_room(spot.place, way) {
        return None;
    }
    let low = spot.cell;
    let Some(cost) = field.cost(costs, spot.local, Edge { low, way }) else {
        return None;
    };
    Some(Neighbour {
        cell: spot.local + field.pane.shape.stride(way),
        cost,
        place: one_on(spot.place, way),
    })
}

/// The next cell against the way, if an edge leads there.
#[inline(always)]
fn behind<C: Costs>(costs: &C, field: &Field, spot: Spot, way: Way) -> Option<Neighbour>
    requires grid { C.grid costs.now ≡ field.now.pane.grid }
    requires priced { IsPriced (C.price costs.now) field.now }
    requires spot { IsSpot field.now.pane spot }
    ensures step { (aim : Aim) → option_map (step_of aim) result ≡
        step_to field.now.pane (C.price costs.now) aim spot.local (behind_of field.now.pane.shape spot.local way) }
    ensures cost { IfSome result (λ n. n.cost ≤ most_cost) }
    ensures cell { IfSome result (λ n. n.cell < size_of field.now.pane) }
    ensures inside { IfSome result (λ n. IsInside field.now.pane.shape n.place) }
{
    if !has_behind(spot.place, way) {
        return None;
    }
    let low = spot.cell - field.pane.grid.stride(way);
    let cell = spot.local - field.pane.shape.stride(way);
    let Some(cost) = field.cost(costs, cell, Edge { low, way }) else {
        return None;
    };
    Some(Neighbour {
        cell,
        cost,
        place: one_back(spot.place, way),
    })
}

/// The neighbour on a side, if an edge leads there.
#[inline(always)]
pub(crate) fn neighbour_on<C: Costs>(
    costs: &C,
    field: &Field,
    spot: Spot,
    side: Side,
) -> Option<Neighbour>
    requires grid { C.grid costs.now ≡ field.now.pane.grid }
    requires priced { IsPriced (C.price costs.now) field.now }
    requires spot { IsSpot field.now.pane spot }
    ensures step { (aim : Aim) → option_map (step_of aim) result ≡
        step_to field.now.pane (C.price costs.now) aim spot.local (beside field.now.pane.shape spot.local side) }
    ensures cost { IfSome result (λ n. n.cost ≤ most_cost) }
    ensures cell { IfSome result (λ n. n.cell < size_of field.now.pane) }
    ensures inside { IfSome result (λ n. IsInside field.now.pane.shape n.place) }
{
    match side {
        Side::Behind(way) => behind(costs, field, spot, way),
        Side::Ahead(way) => ahead(costs, field, spot, way),
    }
}
