//! What a net pays at least.
ghost use Rattle.std.specs.Prelude.{◌≡◌, ℕ, List, ◌+◌, ◌*◌, ◌<◌, ◌≤◌, All, length, slice_index, IfOk, IsTrue};
ghost use Rattle.gr_base.specs.Designs.{DesignView, is_routed};
ghost use Rattle.gr_base.specs.Grid.{cells_of};
ghost use Rattle.grid_demand.specs.Tables.{capacity_of};
ghost use Rattle.price_laws.specs.Prices.{IsNetBound};
ghost use Rattle.net_prices.specs.Arcs.{AreLower};
ghost use Rattle.net_prices.specs.Payments.{IsRaised};
ghost use Rattle.net_prices.specs.PriceTables.{allowed_by, prices_by, ArePrices};
ghost use Rattle.net_prices.specs.declared.rates.Rates.{Rates as RatesOf};

use crate::finder::Finder;
use crate::fold::{Fold, fold_of, fold_pins};
use crate::labels::{Labels, NOTHING};
use crate::payment::pay;
use crate::price_table::fill_prices;
use crate::pricing::Pricing;
use crate::rates::Rates;
use gr_base::{Design, Frame, Shape};
use grid_demand::Capacity;
use std::alloc::{AllocError, Global};
use std::marker::Model;

/// What bounds of nets are found with, one after another: what arcs cost, and what is left for them.
#[derive(Drop)]
pub struct NetPricer {
    fold: Fold,
    table: Vec<u32>,
    left: Vec<u32>,
    labels: Labels,
    finder: Finder,
    /// Where the pins of the last net stand.
    pins: Vec<u32>,
}

impl Model for NetPricer {
    ghost use Rattle.net_prices.specs.Pricers.{PricerView};

    ghost Value = { PricerView };

    ghost use Rattle.net_prices.specs.PricerStore.{seen, Keeps};

    ghost view = { seen };

    ghost invariant = { Keeps };
}

impl NetPricer {
    /// A pricer for nets on a grid, at no prices. Where it is `flat`, nothing is asked for vias, and layers
    /// are taken as one. The only error is want of memory.
    pub fn new(alloc: Global, shape: Shape, flat: bool) -> Result<NetPricer, AllocError>
        ensures { IfOk result (λ p. p.shape ≡ shape) }
    {
        let fold = fold_of(shape, flat);
        let cells = fold.small.cells();
        let arcs = 6 * cells as usize;
        Ok(NetPricer {
            fold,
            table: vec![in alloc; 0; arcs]?,
            left: vec![in alloc; 0; arcs]?,
            labels: Labels::new(alloc, cells)?,
            finder: Finder::new(alloc, fold.small)?,
            pins: Vec::new(alloc),
        })
    }

    /// Sets what arcs cost nets of the width of one, by a weight on each wire edge.
    pub fn set_prices(&mut self, capacity: &Capacity, rates: Rates, weights: &[u32], net: u32)
        requires shape { capacity.now.shape ≡ self.old.shape }
        requires weights { length weights.now ≡ 2 * cells_of capacity.now.shape }
        ensures shape { self.new.shape ≡ self.old.shape }
        ensures prices { (d : DesignView) → capacity.now ≡ capacity_of d →
            ArePrices d rates weights.now net self.new }
    {
        let pricing = Pricing {
            capacity,
            fold: self.fold,
            rates,
            weights,
            net,
        };
        fill_prices(&mut self.table, &pricing);
        restore_all(&self.table, &mut self.left);
    }

    /// What a routed net pays at least for edges that join its pins, at the prices that were set. The
    /// tree that is found for it is added to what trees take. The only error is want of memory.
    pub fn bound(&mut self, design: &Design, net: u32) -> Result<u64, AllocError>
        requires shape { design.now.frame.shape ≡ self.old.shape }
        requires net { net < length design.now.nets }
        requires routed { IsTrue (is_routed design.now net) }
        ensures same { self.new ≡ self.old }
        ensures bound { IfOk result (λ paid. (rates : RatesOf) (weights : List ℕ) →
            ArePrices design.now rates weights net self.old →
            IsNetBound design.now (prices_by rates weights) (allowed_by design.now rates.usable_only) net paid) }
    {
        let frame = design.frame();
        let value = design.net(net);
        fold_pins(&mut self.pins, self.fold, value.pins.as_slice())?;
        self.finder.begin(&self.pins)?;
        let paid = pay_net(
            &mut self.left,
            &mut self.labels,
            &mut self.finder,
            frame,
            self.fold.small,
            value.width,
            &self.pins,
        )?;
        restore(&self.table, &mut self.left, self.finder.touched());
        Ok(paid)
    }

    /// What the trees that were found since the last clearing take of a wire edge, by its number.
    pub fn taken(&self, number: u32) -> u32 {
        self.finder.taken(number)
    }

    /// Forgets what trees take.
    pub fn clear(&mut self)
        ensures { self.new ≡ self.old }
    {
        self.finder.clear();
    }
}

/// Pays for a net's pins, group after group. Gives what is paid. The only error is want of memory.
fn pay_net(
    left: &mut Vec<u32>,
    labels: &mut Labels,
    finder: &mut Finder,
    frame: &Frame,
    small: Shape,
    width: u32,
    pins: &[u32],
) -> Result<u64, AllocError>
    requires some { 0 < length pins.now }
    requires pins { All (λ pin. pin < cells_of small) pins.now }
    requires labels { length labels.old.table ≡ cells_of small }
    requires left { length left.old.items ≡ 6 * cells_of small }
    ensures labels { length labels.new.table ≡ cells_of small }
    ensures lower { AreLower left.old.items left.new.items }
    ensures raised { IfOk result (λ paid.
        IsRaised small (slice_index pins.now 0) pins.now left.old.items left.new.items paid) }
{
    let driver = pins[0];
    let mut paid = 0_u64;
    for _ in 1..pins.len() {
        let Some(found) = finder.find(left, labels)? else {
            break;
        };
        let distance = found.reached.distance;
        let more = pay(left, labels, small, driver, pins, found.start, distance);
        paid = paid.saturating_add(u64::from(more));
        finder.join(labels, frame, small, width, found)?;
    }
    Ok(paid)
}

/// Restores what is left for an arc to what it costs.
fn restore_arc(table: &[u32], left: &mut Vec<u32>, arc: usize)
    requires { AreLower table.now left.old.items }
    ensures { AreLower table.now left.new.items }
{
    if arc < left.len() {
        left[arc] = table[arc];
    }
}

/// Restores what is left for the arcs into a cell.
fn restore_cell(table: &[u32], left: &mut Vec<u32>, cell: u32)
    requires { AreLower table.now left.old.items }
    ensures { AreLower table.now left.new.items }
{
    for arc in 6 * cell as usize..6 * cell as usize + 6 {
        restore_arc(table, left, arc);
    }
}

/// Restores what is left for the arcs into some cells.
fn restore(table: &[u32], left: &mut Vec<u32>, cells: &[u32])
    requires { AreLower table.now left.old.items }
    ensures { AreLower table.now left.new.items }
{
    for cell in cells {
        restore_cell(table, left, *cell);
    }
}

/// Restores what is left for all arcs.
fn restore_all(table: &[u32], left: &mut Vec<u32>)
    requires { length left.old.items ≡ length table.now }
    ensures { AreLower table.now left.new.items }
{
    for arc in 0..left.len() {
        left[arc] = table[arc];
    }
}
