//! Seats, at which the nets of a design are priced side by side.
ghost use Rattle.std.specs.Prelude.{◌≡◌, ℕ, List, ◌+◌, ◌*◌, ◌<◌, ◌≤◌, length, All, IfOk};
ghost use Rattle.gr_base.specs.Designs.{DesignView};
ghost use Rattle.gr_base.specs.Grid.{cells_of};
ghost use Rattle.grid_demand.specs.Tables.{capacity_of};
ghost use Rattle.net_prices.specs.PriceTables.{allowed_by, prices_by};
ghost use Rattle.net_prices.specs.declared.rates.Rates.{Rates as RatesOf};
ghost use Rattle.price_bounds.specs.Costs.{IsCostBound};
ghost use Rattle.price_bounds.specs.Seats.{IsFor, AreFor, IsPriced, ArePriced};

use crate::costs::costs_between;
use beside_calls::for_each_beside;
use gr_base::Design;
use grid_demand::Capacity;
use net_prices::{NetPricer, Rates};
use std::alloc::{AllocError, Global};
use std::thread::Threads;

/// A seat: the nets that one worker prices, from the first on and without the last, what it prices them with, and
/// what they cost at least.
#[derive(Drop)]
pub(crate) struct Seat {
    pub(crate) pricer: NetPricer,
    pub(crate) first: u32,
    pub(crate) last: u32,
    /// Memory may have been wanting.
    pub(crate) cost: Result<u128, AllocError>,
}

/// So many seats, which share the work on a design's nets. The only error is want of memory.
pub(crate) fn seats_for(
    alloc: Global,
    design: &Design,
    flat: bool,
    workers: u32,
) -> Result<Vec<Seat>, AllocError>
    requires some { 0 < workers }
    ensures seats { IfOk result (λ seats. AreFor design.now seats.items) }
{
    let share = whole_work(design).div_ceil(u64::from(workers));
    let mut seats = Vec::with_capacity(alloc, workers as usize)?;
    let mut first = 0;
    for _ in 0..workers {
        let last = share_end(design, first, share);
        let pricer = NetPricer::new(alloc, design.frame().shape, flat)?;
        seats.push(Seat {
            pricer,
            first,
            last,
            cost: Ok(0),
        })?;
        first = last;
    }
    Ok(seats)
}

/// How much work there is on all nets.
fn whole_work(design: &Design) -> u64 {
    let mut work = 0_u64;
    for net in 0..design.nets() {
        work = work.saturating_add(work_of(design, net));
    }
    work
}

/// The net before which a share of the work ends that begins with this one.
fn share_end(design: &Design, first: u32, share: u64) -> u32
    requires first { first ≤ length design.now.nets }
    ensures first { first ≤ result }
    ensures last { result ≤ length design.now.nets }
{
    let mut work = 0_u64;
    for net in first..design.nets() {
        if share <= work {
            return net;
        }
        work = work.saturating_add(work_of(design, net));
    }
    design.nets()
}

/// About how much work there is on a net: it takes a search for each pin but one, and the searches of larger nets
/// reach further.
fn work_of(design: &Design, net: u32) -> u64
    requires net { net < length design.now.nets }
{
    let pins = design.net(net).pins.as_slice().len() as u64;
    pins.saturating_mul(pins)
}

impl Seat {
    /// Prices the seat's nets. The trees that were found before are forgotten.
    fn price(&mut self, design: &Design, capacity: &Capacity, rates: Rates, weights: &[u32])
        requires capacity { capacity.now ≡ capacity_of design.now }
        requires weights { length weights.now ≡ 2 * cells_of capacity.now.shape }
        requires seat { IsFor design.now self.old }
        ensures { IsPriced design.now rates weights.now self.new }
    {
        self.pricer.clear();
        self.cost = costs_between(
            design,
            capacity,
            &mut self.pricer,
            rates,
            weights,
            self.first,
            self.last,
        );
    }
}

/// What the routed nets cost at least together, whatever sets of edges join them, priced at the seats by so many
/// workers. The only error is want of memory.
pub(crate) fn least_cost<R: Threads + Sync>(
    rt: &R,
    design: &Design,
    capacity: &Capacity,
    seats: &mut Vec<Seat>,
    workers: u32,
    rates: Rates,
    weights: &[u32],
) -> Result<u128, AllocError>
    requires capacity { capacity.now ≡ capacity_of design.now }
    requires weights { length weights.now ≡ 2 * cells_of capacity.now.shape }
    requires some { 0 < workers }
    requires seats { AreFor design.now seats.old.items }
    ensures seats { AreFor design.now seats.new.items }
    ensures bound { IfOk result (λ cost.
        IsCostBound design.now (prices_by rates weights.now) (allowed_by design.now rates.usable_only)
        (length design.now.nets) cost) }
{
    price_each(rt, design, capacity, seats, workers, rates, weights);
    sum_of_costs(seats)
}

/// Prices the nets of each seat, side by side.
fn price_each<R: Threads + Sync>(
    rt: &R,
    design: &Design,
    capacity: &Capacity,
    seats: &mut Vec<Seat>,
    workers: u32,
    rates: Rates,
    weights: &[u32],
)
    requires capacity { capacity.now ≡ capacity_of design.now }
    requires weights { length weights.now ≡ 2 * cells_of capacity.now.shape }
    requires some { 0 < workers }
    requires seats { AreFor design.now seats.old.items }
    ensures seats { AreFor design.now seats.new.items }
    ensures priced { ArePriced design.now rates weights.now seats.new.items }
{
    for_each_beside(
        rt,
        seats.as_mut_slice(),
        workers as usize,
        &|_, seat: &mut Seat|
            requires { (capacity.now ≡ capacity_of design.now) × (length weights.now ≡ 2 * cells_of capacity.now.shape) ×
                IsFor design.now seat.now }
            ensures { IsPriced design.entry.now rates weights.entry.now seat.exit.now }
        {
            seat.price(design, capacity, rates, weights);
        },
    );
}

/// The sum of what the seats' nets cost, where no net counts twice. The only error is want of memory.
fn sum_of_costs(seats: &[Seat]) -> Result<u128, AllocError>
    ensures { IfOk result (λ cost. (d : DesignView) (rates : RatesOf) (weights : List ℕ) →
        ArePriced d rates weights seats.now →
        IsCostBound d (prices_by rates weights) (allowed_by d rates.usable_only) (length d.nets) cost) }
{
    let mut counted = 0;
    let mut cost = 0_u128;
    for seat in seats {
        let Ok(more) = seat.cost else {
            return Err(AllocError);
        };
        if counted <= seat.first {
            cost = cost.saturating_add(more);
            counted = seat.last;
        }
    }
    Ok(cost)
}

/// What the trees that were found at the seats take of a wire edge, by its number.
pub(crate) fn taken_at(seats: &[Seat], number: u32) -> u32 {
    let mut taken = 0_u32;
    for seat in seats {
        taken = taken.saturating_add(seat.pricer.taken(number));
    }
    taken
}
