//! Second tries of nets whose first claim found no room.
//!
//! Between a batch's plans and a claim of it there are only claims: demand rises, and marks stay. So a plan
//! stays the plan where no edge between two of its cells got more demand, whatever became dearer aside of it.
ghost use Rattle.std.specs.Prelude.{◌≡◌, ◌≤◌, ◌<◌, ◌^◌, IfOk, IfSome, IsTrue};
ghost use Rattle.gr_base.specs.Designs.{is_routed};
ghost use Rattle.gr_base.specs.Grid.{cells_of, edge_at, is_wire_way, place_at};
ghost use Rattle.grid_demand.specs.LoadSums.{demand_at};
ghost use Rattle.grid_demand.specs.Tables.{capacity_of};
ghost use Rattle.run_histories.specs.Attempts.{kind_of};
ghost use Rattle.run_histories.specs.Rounds.{IsPlanFor};
ghost use Rattle.batch_rounds.specs.SecondTries.{demand_from as demand_from_tree, demand_from_cell as demand_from_one, demand_if, EndsWith, IsRefused};

use crate::asked::Asked;
use crate::basis::Basis;
use book_state::{BookState, Call, History};
use gr_base::{Cell, Edge, RouteTree, Shape, Way};
use grid_demand::Loads;
use net_plan::Planner;
use std::alloc::{AllocError, Global};

/// A net's plan over the history so far, which ends with a refused claim for its plan over an earlier one.
/// That is kept where the demand from its cells is what it was then.
pub(crate) fn plan_again(
    alloc: Global,
    asked: &Asked,
    round: u32,
    net: u32,
    demand: u128,
    book: &BookState,
    planner: &mut Planner,
) -> Result<RouteTree, AllocError>
    requires capacity { book.now.capacity ≡ capacity_of asked.now.design.now }
    requires round { round ≤ asked.now.rounds }
    requires net { IsTrue (is_routed asked.now.design.now net) }
    requires refused { IsRefused asked.now.design.now asked.now.rule.now.formula round net demand book.now.history }
    ensures { IfOk result (IsPlanFor asked.now.design.now asked.now.rule.now.formula book.now.history net
        (kind_of round)) }
{
    let basis = Basis::over(alloc, asked, round, book);
    if round > 0
        && let Some(tree) = last_tree(book.history())
        && demand_from(basis.loads, tree) == demand
    {
        return tree.copy(alloc);
    }
    basis.plan(planner, net)
}

/// The tree of the last entry, where that is a claim.
fn last_tree(history: &History) -> Option<&RouteTree>
    ensures { IfSome result (λ tree. EndsWith history.now tree.now) }
{
    let last = history.len().checked_sub(1)?;
    match &history.entry(last).call {
        Call::Claim(claim) => Some(&claim.tree),
        Call::Release { .. } | Call::Mark => None,
    }
}

/// The demand for the wire edges that begin at the cells of a tree, together.
pub(crate) fn demand_from(loads: &Loads, tree: &RouteTree) -> u128
    requires { tree.now.shape ≡ loads.now.shape }
    ensures { result ≡ demand_from_tree (demand_at loads.now) tree.now }
{
    let mut sum = 0;
    for node in 0..tree.len() {
        sum += demand_from_cell(loads, tree.shape(), tree.cell(node));
    }
    sum
}

/// The demand for the wire edges that begin at a cell, together.
fn demand_from_cell(loads: &Loads, shape: Shape, cell: u32) -> u128
    requires shape { loads.now.shape ≡ shape }
    requires cell { cell < cells_of shape }
    ensures demand { result ≡ demand_from_one shape (demand_at loads.now) cell }
    ensures most { result < 2 ^ 65 }
{
    let place = shape.place_of(cell);
    let east = demand_along(loads, shape, cell, place, Way::East);
    let north = demand_along(loads, shape, cell, place, Way::North);
    u128::from(east) + u128::from(north)
}

/// The demand for the wire edge that begins at a cell and goes this way, or 0 without such an edge.
fn demand_along(loads: &Loads, shape: Shape, cell: u32, place: Cell, way: Way) -> u64
    requires shape { loads.now.shape ≡ shape }
    requires cell { cell < cells_of shape }
    requires place { place ≡ place_at shape cell }
    requires way { IsTrue (is_wire_way way) }
    ensures { result ≡ demand_if shape (demand_at loads.now) (edge_at cell way) }
{
    if !shape.has_room(place, way) {
        return 0;
    }
    loads.demand(Edge { low: cell, way })
}
