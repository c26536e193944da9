//! The bounds of a design by prices.
ghost use Rattle.std.specs.Prelude.{◌≡◌, ℕ, ◌*◌, ◌<◌, ◌≤◌, length, slice_index, IfOk};
ghost use Rattle.gr_base.specs.Grid.{cells_of};
ghost use Rattle.grid_demand.specs.Tables.{capacity_of};
ghost use Rattle.price_laws.specs.Laws.{ArePriceBounds};
ghost use Rattle.gr_base.specs.Designs.{DesignView};
ghost use Rattle.price_bounds.specs.Figures.{divisor_of, IsFigure};
ghost use Rattle.price_bounds.specs.Seats.{AreFor};
ghost use Rattle.price_bounds.specs.Texts.{AreAtLeast, IsFloor};
ghost use Rattle.price_bounds.specs.declared.figure.Figure.TheVariants.{Overflow, Length, Both};

use crate::figure::{Figure, SCALE, rates_of};
use crate::held::held_price_of;
use crate::seats::{Seat, least_cost, seats_for};
use crate::steps::Weights;
use gr_base::Design;
use grid_demand::Capacity;
use std::alloc::{AllocError, Global};
use std::thread::Threads;

/// What no edge sets that join the routed nets of a design are below.
#[derive(Clone, Copy, Debug, PartialEq, Eq)]
pub struct PriceBounds {
    /// Overflow.
    pub overflow: u128,
    /// Wirelength, where they have usable edges alone and nothing overflows.
    pub length: u128,
    /// Wirelength and overflow together, where they have usable edges alone.
    pub both: u128,
}

/// What is asked for: as how many wire edges a via edge counts, how often weights are moved, and by how many
/// workers nets are priced.
#[derive(Clone, Copy, Debug, PartialEq, Eq)]
struct Asked {
    via_cost: u32,
    steps: u32,
    workers: u32,
}

/// The bound that weights give, what the nets cost at least at them, and what the edges hold.
#[derive(Clone, Copy, Debug)]
pub(crate) struct Bound {
    pub most: u128,
    pub cost: u128,
    pub held: u128,
}

/// What is known of overflow and of wirelength along usable edges.
#[derive(Clone, Copy, Debug, PartialEq, Eq)]
pub struct Floor {
    /// Overflow.
    pub overflow: u128,
    /// Wirelength along usable edges.
    pub usable_wirelength: u128,
}

/// The bounds of a design after so many steps for each figure, and at least those that are known. A via
/// edge counts as `via_cost` wire edges, at most 1,000. More steps give no lower bounds, and the workers,
/// who price nets side by side, give the same however many there are. The only error is want of memory.
pub fn price_bounds<R: Threads + Sync>(
    rt: &R,
    alloc: Global,
    design: &Design,
    via_cost: u32,
    steps: u32,
    workers: u32,
    floor: Floor,
) -> Result<PriceBounds, AllocError>
    requires via_cost { via_cost ≤ 1000 }
    requires workers { 0 < workers }
    requires floor { IsFloor design.now via_cost floor.overflow floor.usable_wirelength }
    ensures bounds { IfOk result (λ bounds.
        ArePriceBounds design.now via_cost bounds.overflow bounds.length bounds.both) }
    ensures least { IfOk result (λ bounds.
        AreAtLeast floor.overflow floor.usable_wirelength bounds.overflow bounds.length bounds.both) }
{
    let asked = Asked {
        via_cost,
        steps,
        workers,
    };
    let capacity = Capacity::of(alloc, design)?;
    let overflow = best_bound(rt, alloc, design, &capacity, Figure::Overflow, asked)?;
    let length = best_bound(rt, alloc, design, &capacity, Figure::Length, asked)?;
    let both = best_bound(rt, alloc, design, &capacity, Figure::Both, asked)?;
    Ok(raised(overflow, length, both, floor))
}

/// Figures, but at least those that are known.
fn raised(overflow: u128, length: u128, both: u128, floor: Floor) -> PriceBounds
    ensures bounds { (d : DesignView) (via_cost : ℕ) →
        IsFloor d via_cost floor.overflow floor.usable_wirelength →
        IsFigure d via_cost Overflow overflow → IsFigure d via_cost Length length →
        IsFigure d via_cost Both both →
        ArePriceBounds d via_cost result.overflow result.length result.both }
    ensures least { AreAtLeast floor.overflow floor.usable_wirelength
        result.overflow result.length result.both }
{
    let known = floor.overflow.saturating_add(floor.usable_wirelength);
    PriceBounds {
        overflow: overflow.max(floor.overflow),
        length: length.max(floor.usable_wirelength),
        both: both.max(known),
    }
}

/// The greatest bound of a figure of those that the steps give. The only error is want of memory.
fn best_bound<R: Threads + Sync>(
    rt: &R,
    alloc: Global,
    design: &Design,
    capacity: &Capacity,
    figure: Figure,
    asked: Asked,
) -> Result<u128, AllocError>
    requires capacity { capacity.now ≡ capacity_of design.now }
    requires workers { 0 < asked.workers }
    ensures bound { IfOk result (IsFigure design.now asked.via_cost figure) }
{
    let mut seats = seats_for(alloc, design, figure == Figure::Overflow, asked.workers)?;
    let mut weights = vec![in alloc; 0; 2 * capacity.shape().cells() as usize]?;
    let mut moves = Weights::new(alloc, design, capacity, figure)?;
    moves.put(&mut weights);
    let mut best = 0;
    for _ in 0..asked.steps {
        let bound = bound_at(rt, design, capacity, &mut seats, figure, asked, &weights)?;
        best = bound.most.max(best);
        moves.step(&seats, bound);
        moves.put(&mut weights);
    }
    Ok(best)
}

/// The bound of a figure that weights give. The only error is want of memory.
fn bound_at<R: Threads + Sync>(
    rt: &R,
    design: &Design,
    capacity: &Capacity,
    seats: &mut Vec<Seat>,
    figure: Figure,
    asked: Asked,
    weights: &[u32],
) -> Result<Bound, AllocError>
    requires capacity { capacity.now ≡ capacity_of design.now }
    requires workers { 0 < asked.workers }
    requires seats { AreFor design.now seats.old.items }
    requires weights { length weights.now ≡ 2 * cells_of capacity.now.shape }
    ensures seats { AreFor design.now seats.new.items }
    ensures bound { IfOk result (λ bound. IsFigure design.now asked.via_cost figure bound.most) }
{
    let rates = rates_of(figure, asked.via_cost);
    let cost = least_cost(rt, design, capacity, seats, asked.workers, rates, weights)?;
    let held = held_price_of(capacity, rates, weights);
    let surplus = cost.saturating_sub(held);
    Ok(Bound {
        most: bound_by(surplus, figure, most_weight(weights)),
        cost,
        held,
    })
}

/// The bound that a surplus proves, where no weight is above a number.
fn bound_by(surplus: u128, figure: Figure, most: u32) -> u128
    ensures { (n : ℕ) → surplus ≤ n * divisor_of figure most → result ≤ n }
{
    let divisor = match figure {
        Figure::Overflow => most,
        Figure::Length => SCALE,
        Figure::Both => most.max(SCALE),
    };
    quotient_up(surplus, u128::from(divisor))
}

/// The quotient of two numbers, rounded up, or 0 by 0.
fn quotient_up(number: u128, divisor: u128) -> u128
    ensures { (n : ℕ) → number ≤ n * divisor → result ≤ n }
{
    if divisor == 0 {
        return 0;
    }
    let down = number / divisor;
    if down * divisor == number {
        return down;
    }
    down.saturating_add(1)
}

/// The greatest of the weights, or 0.
fn most_weight(weights: &[u32]) -> u32
    ensures { (n : ℕ) → n < length weights.now → slice_index weights.now n ≤ result }
{
    let mut most = 0;
    for weight in weights {
        most = most.max(*weight);
    }
    most
}
