//! What the nets of a design cost at least at prices.
ghost use Rattle.std.specs.Prelude.{◌≡◌, ℕ, ◌*◌, ◌<◌, ◌≤◌, length, IfOk, IsTrue, Option};
ghost use Rattle.gr_base.specs.Designs.{is_routed};
ghost use Rattle.gr_base.specs.Grid.{cells_of};
ghost use Rattle.grid_demand.specs.Tables.{capacity_of};
ghost use Rattle.net_prices.specs.PriceTables.{allowed_by, prices_by, ArePrices};
ghost use Rattle.price_bounds.specs.Costs.{IsCostOf};
ghost use Rattle.price_bounds.specs.Priced.{IsPricedFor};

use gr_base::Design;
use grid_demand::Capacity;
use net_prices::{NetPricer, Rates};
use std::alloc::AllocError;

/// What the routed nets from one number up to another cost at least together, whatever sets of edges join
/// them. The only error is want of memory.
pub(crate) fn costs_between(
    design: &Design,
    capacity: &Capacity,
    pricer: &mut NetPricer,
    rates: Rates,
    weights: &[u32],
    from: u32,
    to: u32,
) -> Result<u128, AllocError>
    requires capacity { capacity.now ≡ capacity_of design.now }
    requires shape { pricer.old.shape ≡ design.now.frame.shape }
    requires weights { length weights.now ≡ 2 * cells_of capacity.now.shape }
    requires from { from ≤ to }
    requires to { to ≤ length design.now.nets }
    ensures shape { pricer.new.shape ≡ design.now.frame.shape }
    ensures bound { IfOk result (λ cost.
        IsCostOf design.now (prices_by rates weights.now) (allowed_by design.now rates.usable_only) from to cost) }
{
    let mut cost = 0_u128;
    let mut priced = None;
    for net in from..to {
        if !design.routed(net) {
            continue;
        }
        set_prices(design, capacity, pricer, rates, weights, priced, net);
        priced = Some(net);
        cost = cost.saturating_add(u128::from(pricer.bound(design, net)?));
    }
    Ok(cost)
}

/// Sets the prices for a net, unless they are those of a net of its width.
fn set_prices(
    design: &Design,
    capacity: &Capacity,
    pricer: &mut NetPricer,
    rates: Rates,
    weights: &[u32],
    priced: Option<u32>,
    net: u32,
)
    requires capacity { capacity.now ≡ capacity_of design.now }
    requires shape { pricer.old.shape ≡ design.now.frame.shape }
    requires weights { length weights.now ≡ 2 * cells_of capacity.now.shape }
    requires net { net < length design.now.nets }
    requires priced { IsPricedFor design.now rates weights.now priced pricer.old }
    ensures shape { pricer.new.shape ≡ design.now.frame.shape }
    ensures prices { ArePrices design.now rates weights.now net pricer.new }
{
    if let Some(other) = priced {
        if design.net(other).width == design.net(net).width {
            return;
        }
    }
    pricer.set_prices(capacity, rates, weights, net);
}
