//! Costs that follow from cells by a plain rule, so that rows can try planners' calls without a design's loads.
ghost use Rattle.std.specs.Prelude.{◌≡◌, ℕ, ◌+◌, ◌*◌, ◌%◌, ◌≤◌, Bool, true, Some, ◌&&◌, ◌==◌, if◌then◌else◌, refl};
ghost use Rattle.gr_base.specs.declared.grid.Edge.{Edge};
ghost use Rattle.gr_base.specs.Grid.{high_of};
ghost use Rattle.std.proofs.Common.{rules};

use crate::numbers::at;
use cost_rules::Costs;
use gr_base::{Edge, Shape, Way};
use maze_route::{RunCosts, price_each};

/// Costs from 1 on by the low cell and a factor, up to 4 or up to 13, but for the edge between two
/// cells, which has a cost of its own. With factor 0 each other edge costs 1.
#[derive(Clone, Copy)]
pub(crate) struct Priced {
    pub(crate) shape: Shape,
    pub(crate) factor: u32,
    pub(crate) steep: bool,
    pub(crate) low: u32,
    pub(crate) high: u32,
    pub(crate) cost: u64,
    pub(crate) ghost least: { 1 ≤ cost },
    pub(crate) ghost most: { cost ≤ 1048576 },
}

impl Priced {
    /// Costs from 1 to 13.
    pub(crate) fn steep(shape: Shape) -> Priced
        ensures { result.shape ≡ shape }
    {
        Priced {
            shape,
            factor: 7,
            steep: true,
            low: u32::MAX,
            high: u32::MAX,
            cost: 1,
        }
    }

    /// Costs up to 4, but for the edge whose two cells and cost are the numbers at a place.
    pub(crate) fn but_one(shape: Shape, factor: u32, numbers: &[u64], place: usize) -> Priced
        requires { place ≤ 100 }
        ensures { result.shape ≡ shape }
    {
        let cost = u64::from(at(numbers, place + 2));
        Priced {
            shape,
            factor,
            steep: false,
            low: at(numbers, place),
            high: at(numbers, place + 1),
            cost: cost.max(1).min(1_048_576),
        }
    }
}

impl Costs for Priced {
    ghost grid = { λ c. c.shape };

    ghost ways = { λ _ _ _. true };

    ghost price = { λ c e. Some (if (e.low == c.low) && (high_of c.shape e == c.high)
        then c.cost
        else (if c.steep then 1 + e.low * c.factor % 13 else 1 + e.low * c.factor % 4)) };

    ghost prices = { λ c. record {
      up = λ _. refl;
      some = λ _ _. (λ _. refl, λ _. refl);
      least = λ e _. Prim.search rules;
      most = λ e _. Prim.search rules;
    } };

    fn goes(&self, _layer: u32, _way: Way) -> bool {
        true
    }

    fn cost(&self, e: Edge) -> Option<u64> {
        let product = u64::from(e.low) * u64::from(self.factor);
        if e.low == self.low && self.shape.high(e) == self.high {
            Some(self.cost)
        } else if self.steep {
            Some(1 + product % 13)
        } else {
            Some(1 + product % 4)
        }
    }

    fn via(&self, e: Edge) -> Option<u64> {
        self.cost(e)
    }

    fn least_via(&self) -> u64 {
        1
    }
}

impl RunCosts for Priced {
    fn price_run(&self, from: Edge, count: u32, first: usize, prices: &mut Vec<u32>) {
        price_each(self, from, count, first, prices);
    }
}
