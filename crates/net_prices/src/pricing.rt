//! What edges cost a net.
ghost use Rattle.std.specs.Prelude.{◌≡◌, ◌+◌, ◌*◌, ◌<◌, ◌≤◌, length, IsTrue};
ghost use Rattle.gr_base.specs.Capacities.{need};
ghost use Rattle.gr_base.specs.Designs.{DesignView};
ghost use Rattle.gr_base.specs.Grid.{cells_of, has_edge};
ghost use Rattle.grid_demand.specs.Tables.{capacity_of};
ghost use Rattle.price_laws.specs.Prices.{price};
ghost use Rattle.net_prices.specs.Arcs.{nothing};
ghost use Rattle.net_prices.specs.PriceTables.{prices_by};

use crate::fold::Fold;
use crate::labels::NOTHING;
use crate::rates::Rates;
use gr_base::{Edge, Way};
use grid_demand::Capacity;

/// What prices of a net's arcs are made of.
#[derive(Clone, Copy)]
pub(crate) struct Pricing<'a> {
    pub(crate) capacity: &'a Capacity,
    /// The grid of the capacity, and the one for which arcs are kept.
    pub(crate) fold: Fold,
    pub(crate) rates: Rates,
    /// The weight of each wire edge, by its number.
    pub(crate) weights: &'a [u32],
    pub(crate) net: u32,
    pub(crate) ghost grid: { fold.shape ≡ capacity.now.shape },
    pub(crate) ghost long: { length weights.now ≡ 2 * cells_of capacity.now.shape },
}

impl Pricing<'_> {
    /// What an edge costs the net, or somewhat less where that is above what a table can hold.
    pub(crate) fn price(&self, e: Edge) -> u32
        requires { IsTrue (has_edge self.now.capacity.now.shape e) }
        ensures price { (d : DesignView) → self.now.capacity.now ≡ capacity_of d →
            result ≤ price d (prices_by self.now.rates self.now.weights.now) self.now.net e }
        ensures some { result < nothing }
    {
        let value = match e.way {
            Way::East => self.wire_price(self.weights[2 * e.low as usize], e),
            Way::North => self.wire_price(self.weights[2 * e.low as usize + 1], e),
            Way::Up => u64::from(self.rates.scale) * u64::from(self.rates.via_cost),
        };
        value.min(u64::from(NOTHING - 1)) as u32
    }

    /// What a wire edge of a weight costs the net.
    fn wire_price(&self, weight: u32, e: Edge) -> u64
        requires { IsTrue (has_edge self.now.capacity.now.shape e) }
        ensures { (d : DesignView) → self.now.capacity.now ≡ capacity_of d →
            result ≡ self.now.rates.scale + need d self.now.net e * weight }
    {
        u64::from(self.rates.scale) + self.capacity.need(self.net, e) * u64::from(weight)
    }
}
