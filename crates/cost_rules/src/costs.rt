//! What planners may ask of the costs of a grid's edges; each implementation shows that its prices lie in range.
ghost use Rattle.std.specs.Prelude.{◌≡◌, ℕ, ◌≤◌, ◌↔◌, Bool, Option, IsTrue, IsSome, IfSome};
ghost use Rattle.gr_base.specs.declared.grid.Edge.{Edge};
ghost use Rattle.gr_base.specs.declared.grid.Shape.{Shape};
ghost use Rattle.gr_base.specs.declared.grid.Way.{Way};
ghost use Rattle.gr_base.specs.declared.grid.Way.TheVariants.{Up};
ghost use Rattle.gr_base.specs.Grid.{has_edge};
ghost use Rattle.cost_rules.specs.Formulas.{most_cost};
ghost use Rattle.cost_rules.specs.Prices.{layer_of, ArePrices, IsBelowVias};

use gr_base::{Edge, Way};

/// The costs of a grid's edges for one net.
///
/// Contracts see them as the grid's shape, the ways that each layer goes, and the price of each
/// edge.
pub trait Costs {
    ghost grid: { Self → Shape };

    ghost ways: { Self → ℕ → Way → Bool };

    ghost price: { Self → Edge → Option ℕ };

    /// Whether wires may run that way on a layer. Every layer goes up.
    fn goes(&self, layer: u32, way: Way) -> bool
        ensures ways { result ≡ ways self.now layer way }
        ensures up { way ≡ Up → IsTrue result };

    /// What an edge of the grid costs, from 1 to 1,048,576. None exactly where its layer doesn't
    /// go its way.
    fn cost(&self, e: Edge) -> Option<u64>
        requires { IsTrue (has_edge (grid self.now) e) }
        ensures price { result ≡ price self.now e }
        ensures some { IsSome result ↔ IsTrue (ways self.now (layer_of (grid self.now) e) e.way) }
        ensures least { IfSome result (λ cost. 1 ≤ cost) }
        ensures most { IfSome result (λ cost. cost ≤ most_cost) };

    /// What a via edge of the grid costs. Of an edge that goes another way it says nothing.
    fn via(&self, e: Edge) -> Option<u64>
        requires { IsTrue (has_edge (grid self.now) e) }
        ensures price { e.way ≡ Up → result ≡ price self.now e };

    /// What each via edge costs at least, from 1 to 1,048,576.
    fn least_via(&self) -> u64
        ensures least { 1 ≤ result }
        ensures most { result ≤ most_cost }
        ensures vias { IsBelowVias (grid self.now) (price self.now) result };

    ghost prices: { (costs : Self) → ArePrices (grid costs) (ways costs) (price costs) };
}
