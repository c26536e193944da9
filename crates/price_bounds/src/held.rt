//! What weights ask for what edges hold.
ghost use Rattle.std.specs.Prelude.{◌≡◌, ◌*◌, ◌<◌, ◌≤◌, ◌^◌, length};
ghost use Rattle.gr_base.specs.Designs.{DesignView};
ghost use Rattle.gr_base.specs.Grid.{cells_of};
ghost use Rattle.grid_demand.specs.Tables.{capacity_of};
ghost use Rattle.net_prices.specs.PriceTables.{allowed_by, prices_by};
ghost use Rattle.price_laws.specs.Prices.{held_price};
ghost use Rattle.price_bounds.specs.Costs.{held_numbered};

use gr_base::{Edge, Way};
use grid_demand::Capacity;
use net_prices::Rates;

/// What the weights ask for what the edges hold that may be used.
pub(crate) fn held_price_of(capacity: &Capacity, rates: Rates, weights: &[u32]) -> u128
    requires weights { length weights.now ≡ 2 * cells_of capacity.now.shape }
    ensures { (d : DesignView) → capacity.now ≡ capacity_of d →
        result ≡ held_price d (prices_by rates weights.now) (allowed_by d rates.usable_only) }
{
    let mut held = 0_u128;
    for number in 0..2 * capacity.shape().cells() {
        held += u128::from(held_at(capacity, rates, weights, number));
    }
    held
}

/// What its weight asks for what the wire edge with a number holds, if it may be used.
fn held_at(capacity: &Capacity, rates: Rates, weights: &[u32], number: u32) -> u64
    requires number { number < 2 * cells_of capacity.now.shape }
    requires weights { length weights.now ≡ 2 * cells_of capacity.now.shape }
    ensures held { (d : DesignView) → capacity.now ≡ capacity_of d →
        result ≡ held_numbered d (prices_by rates weights.now) (allowed_by d rates.usable_only) number }
    ensures most { result ≤ 2 ^ 63 }
{
    let shape = capacity.shape();
    let way = if number % 2 == 0 {
        Way::East
    } else {
        Way::North
    };
    let low = number / 2;
    if !shape.has_room(shape.place_of(low), way) {
        return 0;
    }
    let e = Edge { low, way };
    if rates.usable_only && !capacity.usable(e) {
        return 0;
    }
    u64::from(weights[number as usize]) * capacity.at(e)
}
