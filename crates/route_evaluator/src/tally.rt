//! What is counted of the nets of a design, one after another.
ghost use Rattle.std.specs.Prelude.{◌≡◌, ◌+◌, ◌*◌, ◌≤◌, ℕ, length, IfOk, OnOk, IsTrue, IsSomeAnd};
ghost use Rattle.gr_base.specs.Designs.{DesignView, is_routed};
ghost use Rattle.gr_base.specs.EdgeSets.{Edges};
ghost use Rattle.gr_base.specs.Grid.{cells_of};
ghost use Rattle.gr_base.specs.Trees.{IsTree, route_edges, tree_at};
ghost use Rattle.grid_demand.specs.Tables.{capacity_of};
ghost use Rattle.solution_text.specs.Runs.{LieIn};
ghost use Rattle.route_reader.specs.Solutions.{IsOf, edges_by};
ghost use Rattle.route_evaluator.specs.EdgeNumbers.{edges_numbered};
ghost use Rattle.route_evaluator.specs.NumberSets.{empty_set};
ghost use Rattle.route_evaluator.specs.Counts.{AreCharged, AreTallied, HasRoom, HasRoomFor, IsCharged, TellsOf, noted, with_count};

use crate::edge_numbers::{edge_with_number, is_via};
use crate::gather::gather_net;
use crate::net_count::{NetCount, count_edges, count_tree};
use crate::number_set::NumberSet;
use crate::reached::Reached;
use crate::verdict::Verdict;
use gr_base::{Cells, Design, NodeIndex, Routes};
use grid_demand::{Capacity, Loads};
use route_reader::Solution;
use std::alloc::{AllocError, Global};

/// What was counted of the nets so far.
#[derive(Drop)]
pub(crate) struct Tally {
    pub wires: u64,
    pub vias: u64,
    pub routed: u32,
    pub unjoined: Cells,
}

impl Tally {
    /// No net is counted.
    pub(crate) fn new(alloc: Global) -> Tally
        ensures { (d : DesignView) (sets : ℕ → Edges) → AreTallied d sets 0 result }
    {
        Tally {
            wires: 0,
            vias: 0,
            routed: 0,
            unjoined: Cells::new(alloc),
        }
    }

    /// Counts the next net, which is routed, by the runs of a solution, and charges its edges. The sets
    /// serve net after net. The only error is want of memory.
    pub(crate) fn count_runs(
        &mut self,
        loads: &mut Loads,
        edges: &mut NumberSet,
        reached: &mut Reached,
        design: &Design,
        capacity: &Capacity,
        solution: &Solution,
        net: u32,
    ) -> Result<(), AllocError>
        requires capacity { capacity.now ≡ capacity_of design.now }
        requires solution { IsOf design.now solution.now }
        requires routed { IsTrue (is_routed design.now net) }
        requires edges { edges.old ≡ empty_set (3 * cells_of design.now.frame.shape) }
        requires reached { reached.old.cells ≡ empty_set (cells_of design.now.frame.shape) }
        requires charged { AreCharged design.now (edges_by solution.now) net loads.old }
        requires tallied { AreTallied design.now (edges_by solution.now) net self.old }
        ensures charged { OnOk result (AreCharged design.now (edges_by solution.now) (net + 1) loads.new) }
        ensures tallied { OnOk result (AreTallied design.now (edges_by solution.now) (net + 1) self.new) }
        ensures edges { OnOk result (edges.new ≡ edges.old) }
        ensures reached { OnOk result (reached.new.cells ≡ reached.old.cells) }
    {
        gather_net(edges, design, solution, net)?;
        let pins = design.net(net).pins.as_slice();
        let count = count_edges(edges, reached, design.frame().shape, pins)?;
        charge(loads, capacity, net, edges);
        edges.clear();
        self.include(net, count)?;
        Ok(())
    }

    /// Counts the next net, which is routed, by its tree, which is in the design's grid. The index
    /// serves net after net. The only error is want of memory.
    pub(crate) fn count_route(
        &mut self,
        index: &mut NodeIndex,
        design: &Design,
        routes: &Routes,
        net: u32,
    ) -> Result<(), AllocError>
        requires routed { IsTrue (is_routed design.now net) }
        requires tree { IsSomeAnd (tree_at routes.now net) (λ tree. tree.shape ≡ design.now.frame.shape) }
        requires index { cells_of design.now.frame.shape ≤ length index.old }
        requires tallied { AreTallied design.now (route_edges routes.now) net self.old }
        ensures tallied { OnOk result (AreTallied design.now (route_edges routes.now) (net + 1) self.new) }
        ensures index { length index.new ≡ length index.old }
        ensures tree { IsSomeAnd (tree_at routes.now net) IsTree }
    {
        let tree = routes.get(net).unwrap();
        let count = count_tree(tree, index, design.net(net).pins.as_slice());
        self.include(net, count)?;
        Ok(())
    }

    /// Adds what is counted of a net. The only error is want of memory.
    fn include(&mut self, net: u32, count: NetCount) -> Result<(), AllocError>
        requires { HasRoomFor self.old.routed self.old.wires self.old.vias count }
        ensures { OnOk result (self.new ≡ with_count net count self.old) }
    {
        note(&mut self.unjoined, net, count.joined)?;
        self.wires += count.wires;
        self.vias += count.vias;
        self.routed += 1;
        Ok(())
    }

    /// The verdict on all nets, of which these are the loads, at a cost for each via edge.
    pub(crate) fn verdict(self, capacity: &Capacity, loads: &Loads, via_cost: u32) -> Verdict
        requires { capacity.now.shape ≡ loads.now.shape }
        ensures { TellsOf via_cost capacity.now loads.now self result }
    {
        let vias = u128::from(self.vias);
        Verdict {
            routed: self.routed,
            total: loads.over_total(capacity),
            max: loads.over_max(capacity),
            wirelength: u128::from(self.wires) + u128::from(via_cost) * vias,
            vias,
            unjoined: self.unjoined,
        }
    }
}

/// Each wire edge of a set gains the net's need.
fn charge(loads: &mut Loads, capacity: &Capacity, net: u32, edges: &NumberSet)
    requires shape { capacity.now.shape ≡ loads.old.shape }
    requires grid { LieIn loads.old.shape (edges_numbered edges.now.numbers) }
    requires room { HasRoom loads.old }
    ensures shape { loads.new.shape ≡ loads.old.shape }
    ensures demand { IsCharged capacity.now net (edges_numbered edges.now.numbers) loads.old loads.new }
{
    for number in edges.numbers() {
        if !is_via(*number) {
            loads.charge(capacity, net, edge_with_number(*number));
        }
    }
}

/// Puts a net behind the others, unless it is joined. The only error is want of memory.
fn note(nets: &mut Cells, net: u32, joined: bool) -> Result<(), AllocError>
    ensures { OnOk result (nets.new ≡ noted joined net nets.old) }
{
    if !joined {
        nets.push(net)?;
    }
    Ok(())
}
