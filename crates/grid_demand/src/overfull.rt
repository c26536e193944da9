//! Which wire edges have more demand than capacity.
ghost use Rattle.std.specs.Prelude.{◌≡◌, ℕ, ◌-◌, ◌*◌, ◌/◌, ◌^◌, ◌<◌, ◌≤◌, [], false, cond, All, nat_lt, length, slice_get, slice_index, slice_index_or, sum_by, zip, IfOk, OnOk, Some};
ghost use Rattle.gr_base.specs.Sums.{wire_number as number_of};
ghost use Rattle.grid_demand.specs.Listings.{Lists, AreTables, AreCalm};
ghost use Rattle.gr_base.specs.Grid.{cells_of};
ghost use Rattle.gr_base.specs.Trees.{is_among};
ghost use Rattle.grid_demand.specs.Overfull.{is_told, told_places, told_edges, AreOverfull};
ghost use Rattle.grid_demand.specs.Planes.{by_number};

use crate::calm::{RUN, calm_runs, calm_runs_by};
use crate::capacity::Capacity;
use crate::loads::Loads;
use crate::numbers::Numbers;
use crate::wires::{edge_placed, place};
use gr_base::Edge;
use std::alloc::{AllocError, Global};
use std::marker::Model;
use std::thread::Threads;

/// The wire edges with more demand than capacity, as a table that takes a byte an edge: where many
/// edges are asked, it is read faster than demand and capacity. Beside it stand the places of which
/// the table says so, for those who want these edges alone, and the sum of their overflow.
#[derive(Debug, Drop)]
pub struct Overfull {
    over: Vec<bool>,
    places: Vec<u32>,
    total: u128,
}

impl Model for Overfull {
    ghost use Rattle.grid_demand.specs.Overfull.{OverfullView};

    ghost Value = { OverfullView };

    ghost use Rattle.grid_demand.specs.OverfullStore.{seen, Keeps};

    ghost view = { seen };

    ghost invariant = { Keeps };
}

impl Loads {
    /// The wire edges with more demand than capacity, by one pass. The only error is want of memory.
    pub fn overfull(&self, alloc: Global, capacity: &Capacity) -> Result<Overfull, AllocError>
        requires { capacity.now.shape ≡ self.now.shape }
        ensures { IfOk result (AreOverfull capacity.now self.now) }
    {
        self.overfull_in(alloc, capacity, None)
    }

    /// The same, in the memory of a table that is given up, where there is one of these edges.
    pub fn overfull_in(
        &self,
        alloc: Global,
        capacity: &Capacity,
        spent: Option<Overfull>,
    ) -> Result<Overfull, AllocError>
        requires { capacity.now.shape ≡ self.now.shape }
        ensures { IfOk result (AreOverfull capacity.now self.now) }
    {
        let demands = self.demands();
        let capacities = capacity.table();
        let calm = calm_runs(alloc, demands, capacities)?;
        let over = overfull_beside(alloc, demands, capacities, &calm, spent)?;
        Ok(over)
    }

    /// The same, by at most so many threads.
    pub fn overfull_by<R: Threads + Sync>(
        &self,
        rt: &R,
        alloc: Global,
        capacity: &Capacity,
        spent: Option<Overfull>,
        threads: u32,
    ) -> Result<Overfull, AllocError>
        requires capacity { capacity.now.shape ≡ self.now.shape }
        requires threads { 0 < threads }
        ensures { IfOk result (AreOverfull capacity.now self.now) }
    {
        let demands = self.demands();
        let capacities = capacity.table();
        let calm = calm_runs_by(rt, alloc, demands, capacities, threads)?;
        let over = overfull_beside(alloc, demands, capacities, &calm, spent)?;
        Ok(over)
    }
}

impl Overfull {
    /// Whether a wire edge has more demand than capacity.
    #[inline(always)]
    pub fn has(&self, e: Edge) -> bool
        requires { number_of e < length self.now.table }
        ensures { result ≡ is_told self.now.table e }
    {
        self.over[place(e, self.over.len())]
    }

    /// The sum of the overflow of all wire edges.
    pub fn total(&self) -> u128
        ensures { result ≡ self.now.total }
    {
        self.total
    }

    /// How many wire edges have more demand than capacity.
    pub fn len(&self) -> usize
        ensures { result ≡ length (told_edges self.now.table) }
    {
        self.places.len()
    }

    /// One of the wire edges with more demand than capacity. They go by way, East first, and then by low
    /// cell.
    pub fn edge(&self, at: usize) -> Edge
        requires { at < length (told_edges self.now.table) }
        ensures { slice_get (told_edges self.now.table) at ≡ Some result }
    {
        edge_placed(self.places[at] as usize, self.over.len())
    }

    /// A listing of nothing in the memory of the table. It touches the edges alone of which the table
    /// says so.
    fn into_none(self) -> Listing
        requires { length self.table ≡ 2 * (length self.table / 2) }
        ensures long { length result.over.items ≡ length self.table }
        ensures none { (n : ℕ) → slice_index_or result.over.items n false ≡ false }
        ensures places { result.places.items ≡ [] }
        ensures total { result.total ≡ 0 }
    {
        let Overfull {
            mut over,
            mut places,
            total: _,
        } = self;
        clear_places(&mut over, &places);
        places.clear();
        Listing {
            over,
            places,
            total: 0,
        }
    }

    /// The places of the wire edges with more demand than capacity.
    pub(crate) fn places(&self) -> &[u32]
        ensures { result.now ≡ told_places self.now.table }
    {
        &self.places
    }
}

/// What is listed of the demands before a place: which of them are above their capacities, the places
/// of these, and by how much they are above together.
#[derive(Debug, Drop)]
struct Listing {
    over: Vec<bool>,
    places: Vec<u32>,
    total: u128,
}

impl Listing {
    /// Nothing of so many demands. The only error is want of memory.
    fn none(alloc: Global, wires: usize) -> Result<Listing, AllocError>
        ensures long { IfOk result (λ listing. length listing.over.items ≡ wires) }
        ensures none { (n : ℕ) → IfOk result (λ listing. slice_index_or listing.over.items n false ≡ false) }
        ensures places { IfOk result (λ listing. listing.places.items ≡ []) }
        ensures total { IfOk result (λ listing. listing.total ≡ 0) }
    {
        Ok(Listing {
            over: vec![in alloc; false; wires]?,
            places: Vec::new(alloc),
            total: 0,
        })
    }

    /// The same, in the memory of a table that is given up, where there is one of so many demands.
    fn none_in(alloc: Global, wires: usize, spent: Option<Overfull>) -> Result<Listing, AllocError>
        requires { wires ≡ 2 * (wires / 2) }
        ensures long { IfOk result (λ listing. length listing.over.items ≡ wires) }
        ensures none { (n : ℕ) → IfOk result (λ listing. slice_index_or listing.over.items n false ≡ false) }
        ensures places { IfOk result (λ listing. listing.places.items ≡ []) }
        ensures total { IfOk result (λ listing. listing.total ≡ 0) }
    {
        match spent {
            Some(spent) if spent.over.len() == wires => Ok(spent.into_none()),
            _ => Listing::none(alloc, wires),
        }
    }

    /// Lists the demands from a place to below another, one by one.
    fn list_run(
        &mut self,
        demands: &Numbers,
        capacities: &[u32],
        from: usize,
        to: usize,
    ) -> Result<(), AllocError>
        requires capacities { length capacities.now ≡ length demands.now }
        requires few { length demands.now < 2 ^ 32 }
        requires order { from ≤ to }
        requires inside { to ≤ length demands.now }
        requires before { Lists demands.now capacities.now
            self.old.over.items self.old.places.items self.old.total from }
        ensures { OnOk result (Lists demands.now capacities.now
            self.new.over.items self.new.places.items self.new.total to) }
    {
        for at in from..to {
            let capacity = u64::from(capacities[at]);
            let demand = demands.at(at);
            if demand > capacity {
                self.over[at] = true;
                self.places.push(at as u32)?;
                self.total += u128::from(demand - capacity);
            }
        }
        Ok(())
    }
}

/// Which demands are above capacities, beside runs of places that are told to have none, in the memory of
/// a table that is given up, where there is one. The only error is want of memory.
fn overfull_beside(
    alloc: Global,
    demands: &Numbers,
    capacities: &[u32],
    calm: &[bool],
    spent: Option<Overfull>,
) -> Result<Overfull, AllocError>
    requires tables { AreTables demands.now capacities.now }
    requires calm { AreCalm demands.now capacities.now calm.now }
    ensures long { IfOk result (λ over. length over.table ≡ length demands.now) }
    ensures each { IfOk result (λ over. (n : ℕ) → n < length demands.now → slice_index_or over.table n false
        ≡ nat_lt (slice_index (by_number 0 capacities.now) n) (slice_index (by_number 0 demands.now) n)) }
    ensures total { IfOk result (λ over.
        over.total ≡ sum_by (λ (p : ℕ × ℕ). p.0 - p.1) (zip demands.now capacities.now)) }
{
    let listing = Listing::none_in(alloc, demands.len(), spent)?;
    overfull_of(listing, demands, capacities, calm)
}

/// Which demands are above capacities, where both are in planes. Few are: most runs of places are told
/// to have none, and are passed over.
fn overfull_of(
    listing: Listing,
    demands: &Numbers,
    capacities: &[u32],
    calm: &[bool],
) -> Result<Overfull, AllocError>
    requires long { length listing.over.items ≡ length demands.now }
    requires none { (n : ℕ) → slice_index_or listing.over.items n false ≡ false }
    requires places { listing.places.items ≡ [] }
    requires total { listing.total ≡ 0 }
    requires tables { AreTables demands.now capacities.now }
    requires calm { AreCalm demands.now capacities.now calm.now }
    ensures long { IfOk result (λ over. length over.table ≡ length demands.now) }
    ensures each { IfOk result (λ over. (n : ℕ) → n < length demands.now → slice_index_or over.table n false
        ≡ nat_lt (slice_index (by_number 0 capacities.now) n) (slice_index (by_number 0 demands.now) n)) }
    ensures total { IfOk result (λ over.
        over.total ≡ sum_by (λ (p : ℕ × ℕ). p.0 - p.1) (zip demands.now capacities.now)) }
{
    let wires = demands.len();
    let mut listing = listing;
    let mut from = 0;
    let mut run = 0;
    while from < wires {
        let to = wires.min(from + RUN);
        if !is_told_calm(calm, run) {
            listing.list_run(demands, capacities, from, to)?;
        }
        from = to;
        run += 1;
    }
    Ok(Overfull {
        over: listing.over,
        places: listing.places,
        total: listing.total,
    })
}

/// Whether a run is told to be calm.
fn is_told_calm(calm: &[bool], run: usize) -> bool
    ensures { result ≡ slice_index_or calm.now run false }
{
    calm.get(run).copied().unwrap_or(false)
}

/// Puts false at some places.
fn clear_places(over: &mut Vec<bool>, places: &[u32])
    requires { All (λ place. place < length over.old.items) places.now }
    ensures long { length over.new.items ≡ length over.old.items }
    ensures each { (n : ℕ) → slice_index_or over.new.items n false
        ≡ cond (is_among places.now n) false (slice_index_or over.old.items n false) }
{
    for place in places {
        over[*place as usize] = false;
    }
}
