//! The loads of a grid: the demand for each wire edge, and its marks.
ghost use Rattle.std.specs.Prelude.{◌≡◌, ℕ, ◌+◌, ◌-◌, ◌*◌, ◌^◌, ◌<◌, ◌≤◌, length, map, fold, max, zip, sum_by, slice_index, slice_set, true, false, All, IfOk, IfSome, IsTrue};
ghost use Rattle.std.specs.List.Sorted.{IsStrictlyIncreasing};
ghost use Rattle.gr_base.specs.Capacities.{capacity as capacity_in};
ghost use Rattle.gr_base.specs.Designs.{DesignView};
ghost use Rattle.gr_base.specs.Grid.{cells_of, has_edge, is_wire};
ghost use Rattle.gr_base.specs.Sums.{wires_from_cells, total_overflow, most_overflow};
ghost use Rattle.gr_base.specs.Limits.{most_marks, most_width};
ghost use Rattle.gr_base.specs.Trees.{IsTree, edges_of, is_among};
ghost use Rattle.grid_demand.specs.Planes.{by_number, in_planes};
ghost use Rattle.grid_demand.specs.Tables.{capacity_of, capacity_at, need_at};
ghost use Rattle.grid_demand.specs.LoadSums.{no_loads, demand_at, marks_at, share, charged, added, taken, marked, mark_of, mark_where, HasRoom, HasShare, AreLoads, Fits, changed_by};
ghost use Rattle.grid_demand.specs.Runs.{AreBeside, IsRunOf};
ghost use Rattle.grid_demand.specs.Overfull.{AreOverfull};

use crate::capacity::{Capacity, LayerNeed};
use crate::numbers::Numbers;
use crate::overfull::Overfull;
use crate::wires::place;
use gr_base::{Edge, MOST_MARKS, RouteTree, Shape};
use std::alloc::{AllocError, Global};
use std::marker::Model;

/// The demand for each wire edge of a grid, in units of width, and the marks of each: how often it
/// was over its capacity when the loads were marked.
///
/// Both lists go by the places of wire edges. That of marks isn't read before an edge has a mark.
#[derive(Debug, Drop)]
pub struct Loads {
    shape: Shape,
    demands: Numbers,
    marks: Numbers,
    marked: bool,
}

impl Loads {
    /// Loads without demand and marks. The only error is want of memory.
    pub fn new(alloc: Global, capacity: &Capacity) -> Result<Loads, AllocError>
        ensures { IfOk result (λ loads. loads ≡ no_loads capacity.now.shape) }
    {
        let shape = capacity.shape();
        let wires = 2 * shape.cells() as usize;
        Ok(Loads {
            shape,
            demands: Numbers::none(alloc, wires)?,
            marks: Numbers::none(alloc, wires)?,
            marked: false,
        })
    }

    /// The demand for a wire edge.
    #[inline(always)]
    pub fn demand(&self, e: Edge) -> u64
        requires edge { IsTrue (has_edge self.now.shape e) }
        requires wire { IsTrue (is_wire e) }
        ensures demand { result ≡ demand_at self.now e }
        ensures loads { AreLoads self.now }
    {
        self.demands.at(place(e, self.demands.len()))
    }

    /// The marks of a wire edge, at most 1,048,576.
    #[inline(always)]
    pub fn marks(&self, e: Edge) -> u32
        requires edge { IsTrue (has_edge self.now.shape e) }
        requires wire { IsTrue (is_wire e) }
        ensures marks { result ≡ marks_at self.now e }
        ensures most { result ≤ most_marks }
        ensures loads { AreLoads self.now }
    {
        if !self.marked {
            return 0;
        }
        self.marks.at(place(e, self.demands.len())) as u32
    }

    /// The demand for each of so many wire edges that lie side by side, from one on. None where some
    /// wire edge of the grid may have a demand above 65,535.
    pub fn demand_run(&self, from: Edge, count: u32) -> Option<&[u16]>
        requires { AreBeside self.now.shape from count }
        ensures { IfSome result (λ run. IsRunOf (demand_at self.now) from count run.now) }
    {
        let first = place(from, self.demands.len());
        self.demands.run(first, first + count as usize)
    }

    /// The marks of each of so many wire edges that lie side by side, from one on. None where some wire
    /// edge of the grid may have more than 65,535 marks.
    pub fn marks_run(&self, from: Edge, count: u32) -> Option<&[u16]>
        requires { AreBeside self.now.shape from count }
        ensures { IfSome result (λ run. IsRunOf (marks_at self.now) from count run.now) }
    {
        let first = place(from, self.demands.len());
        self.marks.run(first, first + count as usize)
    }

    /// Puts one wire edge of a net in: the edge gains the net's need. The edge's demand is at most 2^47.
    pub fn charge(&mut self, capacity: &Capacity, net: u32, e: Edge)
        requires capacity { capacity.now.shape ≡ self.old.shape }
        requires edge { IsTrue (has_edge self.old.shape e) }
        requires wire { IsTrue (is_wire e) }
        requires room { demand_at self.old e ≤ 2 ^ 47 }
        ensures loads { self.new ≡ charged capacity.now net e self.old }
        ensures whole { AreLoads self.new }
    {
        let need = capacity.need(net, e);
        let at = place(e, self.demands.len());
        let demand = self.demands.at(at);
        self.demands.put(at, demand + need);
    }

    /// Puts a net's tree in: each wire edge of the tree gains the net's need. No edge of the tree has a
    /// demand above 2^47.
    pub fn add(&mut self, capacity: &Capacity, net: u32, tree: &RouteTree)
        requires capacity { capacity.now.shape ≡ self.old.shape }
        requires tree { tree.now.shape ≡ self.old.shape }
        requires room { HasRoom self.old tree.now }
        ensures loads { self.new ≡ added capacity.now net tree.now self.old }
        ensures whole { AreLoads self.new }
        ensures tree { IsTree tree.now }
    {
        change_along(&mut self.demands, capacity, net, tree, Change::Gain);
    }

    /// Takes a net's tree out: each wire edge of the tree loses the net's need. Each has at least that
    /// demand.
    pub fn take(&mut self, capacity: &Capacity, net: u32, tree: &RouteTree)
        requires capacity { capacity.now.shape ≡ self.old.shape }
        requires tree { tree.now.shape ≡ self.old.shape }
        requires share { HasShare capacity.now net tree.now self.old }
        ensures loads { self.new ≡ taken capacity.now net tree.now self.old }
        ensures whole { AreLoads self.new }
    {
        change_along(&mut self.demands, capacity, net, tree, Change::Lose);
    }

    /// Marks each wire edge whose demand is above its capacity, which is that of the same grid. Marks
    /// stop at 1,048,576.
    ///
    /// After the history of congestion of McMurchie and Ebeling, "PathFinder", 1995.
    pub fn mark(&mut self, capacity: &Capacity)
        requires { capacity.now.shape ≡ self.old.shape }
        ensures loads { self.new ≡ marked capacity.now self.old }
        ensures whole { AreLoads self.new }
    {
        let any = mark_over(&mut self.marks, &self.demands, capacity.table());
        self.marked = self.marked || any;
    }

    /// The same, where the edges are told whose demand is above their capacity in the same grid: it touches
    /// these alone.
    pub fn mark_overfull(&mut self, capacity: &Capacity, over: &Overfull)
        requires { AreOverfull capacity.now self.old over.now }
        ensures loads { self.new ≡ marked capacity.now self.old }
        ensures whole { AreLoads self.new }
    {
        let places = over.places();
        mark_places(&mut self.marks, places);
        self.marked = self.marked || !places.is_empty();
    }

    /// The demand for each wire edge, by place.
    pub(crate) fn demands(&self) -> &Numbers
        ensures demands { by_number 0 result.now ≡ self.now.demands }
        ensures loads { AreLoads self.now }
    {
        &self.demands
    }

    /// The sum of the overflow of all wire edges: of what demand is above capacity, or 0.
    pub fn over_total(&self, capacity: &Capacity) -> u128
        requires { capacity.now.shape ≡ self.now.shape }
        ensures value { result ≡ total_overflow self.now.shape (demand_at self.now) (capacity_at capacity.now) }
        ensures design { (d : DesignView) → capacity.now ≡ capacity_of d →
            result ≡ total_overflow self.now.shape (demand_at self.now) (capacity_in d) }
    {
        total_over(&self.demands, capacity.table())
    }

    /// The greatest overflow of a wire edge, or 0 where there is none.
    pub fn over_max(&self, capacity: &Capacity) -> u64
        requires { capacity.now.shape ≡ self.now.shape }
        ensures value { result ≡ most_overflow self.now.shape (demand_at self.now) (capacity_at capacity.now) }
        ensures design { (d : DesignView) → capacity.now ≡ capacity_of d →
            result ≡ most_overflow self.now.shape (demand_at self.now) (capacity_in d) }
    {
        most_over(&self.demands, capacity.table())
    }
}

impl Model for Loads {
    ghost use Rattle.grid_demand.specs.LoadSums.{LoadsView};

    ghost Value = { LoadsView };

    ghost use Rattle.grid_demand.specs.LoadsStore.{seen, Keeps};

    ghost view = { seen };

    ghost invariant = { Keeps };
}

/// What a tree does to the demand for its wire edges.
#[derive(Clone, Copy, Debug, PartialEq, Eq)]
pub(crate) enum Change {
    Gain,
    Lose,
}

/// Changes the demands of the wire edges of a net's tree by the net's need.
fn change_along(
    demands: &mut Numbers,
    capacity: &Capacity,
    net: u32,
    tree: &RouteTree,
    change: Change,
)
    requires long { length demands.old ≡ 2 * cells_of tree.now.shape }
    requires shape { capacity.now.shape ≡ tree.now.shape }
    requires fits { (e : Edge) → IsTrue (edges_of tree.now e) → IsTrue (is_wire e) →
        Fits change (in_planes demands.old e) (need_at capacity.now net e) }
    ensures demands { by_number 0 demands.new ≡
        map (λ e. changed_by change (in_planes demands.old e) (share capacity.now net tree.now e))
        (wires_from_cells tree.now.shape) }
    ensures tree { IsTree tree.now }
{
    let width = capacity.width(net);
    let mut layer = LayerNeed::none();
    for node in 0..tree.len() {
        let Some(e) = tree.wire_to_parent(node) else {
            continue;
        };
        let at = place(e, demands.len());
        let demand = demands.at(at);
        layer = capacity.need_on_layer(layer, width, e);
        demands.put(at, changed(change, demand, layer.need));
    }
}

/// A demand that is changed by a need.
fn changed(change: Change, demand: u64, need: u64) -> u64
    requires fits { Fits change demand need }
    requires need { need ≤ 2 * most_width }
    requires small { demand < 2 ^ 48 }
    ensures value { result ≡ changed_by change demand need }
    ensures small { result < 2 ^ 48 }
{
    match change {
        Change::Gain => demand + need,
        Change::Lose => demand - need,
    }
}

/// Adds a mark where the demand is above the capacity, up to the most marks. It answers whether there
/// is such a place.
fn mark_over(marks: &mut Numbers, demands: &Numbers, capacities: &[u32]) -> bool
    requires demands { length demands.now ≡ length marks.old }
    requires capacities { length capacities.now ≡ length marks.old }
    ensures long { length marks.new ≡ length marks.old }
    ensures each { (n : ℕ) → n < length marks.old → slice_index marks.new n
        ≡ mark_of (slice_index demands.now n) (slice_index capacities.now n) (slice_index marks.old n) }
    ensures none { result ≡ false → marks.new ≡ marks.old }
{
    let mut any = false;
    for at in 0..demands.len() {
        if demands.at(at) > u64::from(capacities[at]) {
            add_mark(marks, at);
            any = true;
        }
    }
    any
}

/// Adds a mark at each of some places, up to the most marks.
fn mark_places(marks: &mut Numbers, places: &[u32])
    requires inside { All (λ place. place < length marks.old) places.now }
    requires rising { IsStrictlyIncreasing places.now }
    ensures long { length marks.new ≡ length marks.old }
    ensures each { (n : ℕ) → n < length marks.old → slice_index marks.new n
        ≡ mark_where (is_among places.now n) (slice_index marks.old n) }
{
    for place in places {
        add_mark(marks, *place as usize);
    }
}

/// Adds a mark at a place, up to the most marks.
fn add_mark(marks: &mut Numbers, place: usize)
    requires { place < length marks.old }
    ensures { marks.new ≡ slice_set marks.old place (mark_where true (slice_index marks.old place)) }
{
    let more = marks.at(place).saturating_add(1);
    marks.put(place, more.min(u64::from(MOST_MARKS)));
}

/// The sum of what demands are above capacities.
fn total_over(demands: &Numbers, capacities: &[u32]) -> u128
    requires capacities { length capacities.now ≡ length demands.now }
    requires few { length demands.now < 2 ^ 32 }
    ensures { result ≡ sum_by (λ (p : ℕ × ℕ). p.0 - p.1) (zip demands.now capacities.now) }
{
    let mut total = 0;
    for at in 0..demands.len() {
        total += u128::from(demands.at(at).saturating_sub(u64::from(capacities[at])));
    }
    total
}

/// The greatest of what demands are above capacities, or 0.
fn most_over(demands: &Numbers, capacities: &[u32]) -> u64
    requires { length capacities.now ≡ length demands.now }
    ensures { result ≡ fold (λ m (p : ℕ × ℕ). max m (p.0 - p.1)) 0 (zip demands.now capacities.now) }
{
    let mut most = 0;
    for at in 0..demands.len() {
        most = most.max(demands.at(at).saturating_sub(u64::from(capacities[at])));
    }
    most
}
