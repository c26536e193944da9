//! How the weights of a figure are moved from step to step. None of it is relied on.
ghost use Rattle.std.specs.Prelude.{◌≡◌, length};

use crate::bounding::Bound;
use crate::cuts::{cuts_of, flat_wires, held_of, held_over, least_need, need_on};
use crate::figure::{Figure, SCALE};
use crate::seats::{Seat, taken_at};
use gr_base::{Design, Frame};
use grid_demand::Capacity;
use std::alloc::{AllocError, Global};

/// How many parts a weight is moved by.
const PARTS: u32 = 1 << 8;

/// The greatest weight where overflow counts.
const MOST: u32 = SCALE;

/// The greatest weight where it doesn't.
const MOST_WITHOUT: u32 = 1 << 20;

/// The first weights for overflow beside full cuts: enough that the first trees are short.
const FIRST: u32 = SCALE / 64;

/// How far the first step goes, in parts of 1,024.
const FIRST_STRIDE: u64 = 1_024;

/// The farthest that a step goes.
const MOST_STRIDE: u64 = 1 << 20;

/// How many steps without a gain make the next ones shorter.
const PATIENCE: u32 = 2;

/// More than the wire edges of a grid.
const MOST_WIRES: usize = 1 << 25;

/// A wire edge.
#[derive(Clone, Copy, Debug)]
struct WeightedEdge {
    held: u64,
    /// Its weight, in parts.
    weight: u32,
    /// The weight that it had when most was proved.
    kept: u32,
    /// What was taken of it beyond what it holds, in sixteenths: the last step counts for a fifth, those
    /// before it for the others.
    trend: i64,
}

/// The weights of a figure, and how the steps went: each begins where most was proved. For overflow the
/// layers over a tile are one, and their weights go together.
#[derive(Debug, Drop)]
pub(crate) struct Weights {
    /// By number.
    wires: Vec<WeightedEdge>,
    /// By layer, where the layers are one: the least need over the layers by its own, in parts. So nets ask
    /// for the same price on each.
    ratios: Vec<u32>,
    /// The greatest weight, in parts.
    most: u32,
    /// What nets cost, and what edges held, where most was proved.
    cost: u128,
    held: u128,
    /// How far the next step goes, in parts of 1,024.
    stride: u64,
    /// Steps since the last gain.
    since: u32,
    begun: bool,
}

impl Weights {
    /// The weights of a figure before the first step. The only error is want of memory.
    pub(crate) fn new(
        alloc: Global,
        design: &Design,
        capacity: &Capacity,
        figure: Figure,
    ) -> Result<Weights, AllocError> {
        let most = match figure {
            Figure::Overflow | Figure::Both => MOST,
            Figure::Length => MOST_WITHOUT,
        };
        let flat = figure == Figure::Overflow;
        Ok(Weights {
            wires: if flat {
                flat_wires_of(alloc, design, capacity)?
            } else {
                wires_of(alloc, capacity)?
            },
            ratios: ratios_of(alloc, design.frame(), flat)?,
            most: most * PARTS,
            cost: 0,
            held: 0,
            stride: FIRST_STRIDE,
            since: 0,
            begun: false,
        })
    }

    /// Puts the weights of all wire edges in.
    pub(crate) fn put(&self, weights: &mut Vec<u32>)
        ensures { length weights.new.items ≡ length weights.old.items }
    {
        let wires = self.wires.len().max(1);
        for number in 0..weights.len() {
            let weight = self.wires.get(number % wires).map_or(0, |wire| wire.weight);
            let ratio = self.ratios.get(number / wires).copied().unwrap_or(0);
            weights[number] = (weight / PARTS).saturating_mul(ratio) / PARTS;
        }
    }

    /// Moves the weights after a step at which weights gave this bound.
    pub(crate) fn step(&mut self, seats: &[Seat], bound: Bound) {
        let over = self.turn(seats);
        self.note(bound);
        self.begun = true;
        let gain = self.cost.saturating_sub(self.held) / 20
            + u128::from(over).saturating_mul(u128::from(SCALE)) / 100;
        let far = gain
            .saturating_mul(u128::from(self.stride))
            .saturating_mul(1 << 20);
        let pace = far / u128::from(self.norm().max(1));
        self.shift(pace.min(u128::from(u64::MAX)) as u64);
    }

    /// Notes what a step proved. Where that is more than before, the next step goes farther, and begins here;
    /// where it isn't for some steps, they go less far.
    fn note(&mut self, bound: Bound) {
        let before = self.cost.saturating_add(bound.held);
        if !self.begun || before < bound.cost.saturating_add(self.held) {
            self.cost = bound.cost;
            self.held = bound.held;
            self.since = 0;
            self.stride = (self.stride.saturating_mul(13) / 10).min(MOST_STRIDE);
            self.keep();
            return;
        }
        self.since = self.since.saturating_add(1);
        if self.since >= PATIENCE {
            self.since = 0;
            self.stride = self.stride.saturating_mul(3) / 5;
        }
    }

    /// Takes in what the last trees take. Gives by how much that is more than edges hold.
    fn turn(&mut self, seats: &[Seat]) -> u64 {
        let mut over = 0_u64;
        for number in 0..self.wires.len() {
            let taken = u64::from(taken_at(seats, number.min(MOST_WIRES) as u32));
            if let Some(wire) = self.wires.get_mut(number) {
                over = over.saturating_add(taken.saturating_sub(wire.held));
                wire.trend = turned(wire.trend, excess(taken, wire.held), self.begun);
            }
        }
        over
    }

    /// Keeps the weights as those that proved most.
    fn keep(&mut self) {
        for number in 0..self.wires.len() {
            if let Some(wire) = self.wires.get_mut(number) {
                wire.kept = wire.weight;
            }
        }
    }

    /// The sum of the squares by which weights can move.
    fn norm(&self) -> u64 {
        let mut norm = 0_u64;
        for wire in self.wires.iter() {
            let stays = (wire.kept == 0 && wire.trend < 0)
                || (wire.kept == self.most && wire.trend > 0);
            if !stays {
                let size = wire.trend.unsigned_abs();
                norm = norm.saturating_add(size.saturating_mul(size));
            }
        }
        norm
    }

    /// Moves each weight by its trend, from where most was proved.
    fn shift(&mut self, pace: u64) {
        let most = self.most;
        for number in 0..self.wires.len() {
            if let Some(wire) = self.wires.get_mut(number) {
                let more = pace.saturating_mul(wire.trend.unsigned_abs()) >> 18;
                let more = more.min(u64::from(most)) as u32;
                wire.weight = if wire.trend < 0 {
                    wire.kept.saturating_sub(more)
                } else {
                    wire.kept.saturating_add(more).min(most)
                };
            }
        }
    }
}

/// By how much more is taken than held, in sixteenths.
fn excess(taken: u64, held: u64) -> i64 {
    let few = u64::from(u32::MAX);
    (taken.min(few) as i64 - held.min(few) as i64) * 16
}

/// A trend after a step.
fn turned(trend: i64, excess: i64, begun: bool) -> i64 {
    if !begun {
        return excess;
    }
    trend.saturating_mul(4).saturating_add(excess) / 5
}

/// The wire edges of the grid with its layers as one: the greatest weights on overfull cuts, and where nothing
/// is held. The only error is want of memory.
fn flat_wires_of(
    alloc: Global,
    design: &Design,
    capacity: &Capacity,
) -> Result<Vec<WeightedEdge>, AllocError> {
    let shape = design.frame().shape;
    let cuts = cuts_of(alloc, design, capacity)?;
    let mut wires = Vec::new(alloc);
    for number in 0..flat_wires(shape) {
        let held = held_over(shape, capacity, number);
        let full = held == 0 || cuts.is_full(shape, number);
        wires.push(weighted(held, if full { MOST } else { FIRST }))?;
    }
    Ok(wires)
}

/// The wire edges of the grid, without weights. The only error is want of memory.
fn wires_of(alloc: Global, capacity: &Capacity) -> Result<Vec<WeightedEdge>, AllocError> {
    let mut wires = Vec::new(alloc);
    for number in 0..2 * capacity.shape().cells() {
        let held = u64::from(held_of(capacity, number));
        wires.push(weighted(held, 0))?;
    }
    Ok(wires)
}

/// A wire edge that holds so much, with its first weight.
fn weighted(held: u64, weight: u32) -> WeightedEdge {
    let weight = weight.saturating_mul(PARTS);
    WeightedEdge {
        held,
        weight,
        kept: weight,
        trend: 0,
    }
}

/// By layer: the least need over the layers by its own, in parts. The only error is want of memory.
fn ratios_of(alloc: Global, frame: &Frame, flat: bool) -> Result<Vec<u32>, AllocError> {
    let least = least_need(frame, 0);
    let mut ratios = Vec::new(alloc);
    for layer in 0..frame.shape.layers() {
        let own = need_on(frame, 0, layer);
        let ratio = if own == 0 || !flat {
            PARTS
        } else {
            least.saturating_mul(PARTS) / own
        };
        ratios.push(ratio)?;
    }
    Ok(ratios)
}
