//! Costs that are asked for many edges at a time.
ghost use Rattle.std.specs.Prelude.{◌≡◌, ℕ, ◌+◌, ◌<◌, ◌≤◌, Some, length, IfSome, IsTrue};
ghost use Rattle.cost_rules.specs.Formulas.{most_cost};
ghost use Rattle.gr_base.specs.Grid.{has_edge, edge_at};
ghost use Rattle.maze_route.specs.Runs.{price_from, IsRun, AreSideBySide};

use cost_rules::Costs;
use gr_base::Edge;

/// What stands for no price in a list of prices.
pub(crate) const NO_PRICE: u32 = u32::MAX;

/// Costs that tell prices by runs of edges, since much of a price is the same for all edges of a run.
pub trait RunCosts: Costs {
    /// Puts the prices of so many wire edges, side by side on a layer that goes their way, from one on, into
    /// a list from a place on.
    fn price_run(&self, from: Edge, count: u32, first: usize, prices: &mut Vec<u32>)
        requires edges { AreSideBySide (Self.grid self.now) (Self.ways self.now) from count }
        requires inside { first + count ≤ length prices.old.items }
        ensures { IsRun (Self.price self.now) from first count prices.old.items prices.new.items };
}

/// What is held for a cost.
#[inline(always)]
fn held_for(cost: Option<u64>) -> u32
    requires { IfSome cost (λ cost. cost ≤ most_cost) }
    ensures { price_from (Some result) ≡ cost }
{
    match cost {
        Some(cost) => cost as u32,
        None => NO_PRICE,
    }
}

/// Puts the prices of edges that lie side by side into a list, one after the other: a `price_run` for costs
/// that have no better way.
pub fn price_each<C: Costs>(costs: &C, from: Edge, count: u32, first: usize, prices: &mut Vec<u32>)
    requires inside { first + count ≤ length prices.old.items }
    requires edges { (place : ℕ) → place < count →
        IsTrue (has_edge (C.grid costs.now) (edge_at (from.low + place) from.way)) }
    ensures { IsRun (C.price costs.now) from first count prices.old.items prices.new.items }
{
    for place in 0..count {
        let edge = Edge {
            low: from.low + place,
            ..from
        };
        prices[first + place as usize] = held_for(costs.cost(edge));
    }
}
