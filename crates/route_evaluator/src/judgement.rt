//! Judges all routed nets of a design, by a solution's runs or by trees, and sums them up in one verdict.
ghost use Rattle.std.specs.Prelude.{◌≡◌, ◌≤◌, IfOk, OnOk};
ghost use Rattle.gr_base.specs.Trees.{route_edges};
ghost use Rattle.grid_demand.specs.Tables.{capacity_of};
ghost use Rattle.route_reader.specs.Solutions.{IsOf, edges_by};
ghost use Rattle.straight_runs.specs.Routed.{HaveTrees};
ghost use Rattle.route_evaluator.specs.NetTrees.{AreTrees};
ghost use Rattle.route_evaluator.specs.Verdicts.{AreLoadsBy, IsVerdict};

use crate::number_set::NumberSet;
use crate::reached::Reached;
use crate::tally::Tally;
use crate::verdict::Verdict;
use gr_base::{Design, NodeIndex, Routes};
use grid_demand::{Capacity, Loads};
use route_reader::Solution;
use std::alloc::{AllocError, Global};

/// Judges a solution of a design. Each routed net has the set of edges that its runs cover, however
/// often they cover an edge; a net of more than 1,000 pins isn't counted. The via cost, at most
/// 1,000, is what a via edge counts in the wirelength. The only error is want of memory.
pub fn evaluate(
    alloc: Global,
    design: &Design,
    solution: &Solution,
    via_cost: u32,
) -> Result<Verdict, AllocError>
    requires solution { IsOf design.now solution.now }
    requires cost { via_cost ≤ 1000 }
    ensures { IfOk result (λ verdict. IsVerdict design.now via_cost (edges_by solution.now) verdict) }
{
    let shape = design.frame().shape;
    let capacity = Capacity::of(alloc, design)?;
    let mut loads = Loads::new(alloc, &capacity)?;
    let mut tally = Tally::new(alloc);
    let mut edges = NumberSet::new(alloc, 3 * shape.cells())?;
    let mut reached = Reached::new(alloc, shape)?;
    for net in 0..design.nets() {
        if design.routed(net) {
            tally.count_runs(
                &mut loads,
                &mut edges,
                &mut reached,
                design,
                &capacity,
                solution,
                net,
            )?;
        }
    }
    Ok(tally.verdict(&capacity, &loads, via_cost))
}

/// Judges the routes of a design with this capacity, in which each routed net has a tree in the
/// design's grid. The loads are those of the routes: overflow is read off them. The via cost, at most
/// 1,000, is what a via edge counts in the wirelength. The only error is want of memory.
pub fn evaluate_routes(
    alloc: Global,
    design: &Design,
    capacity: &Capacity,
    loads: &Loads,
    routes: &Routes,
    via_cost: u32,
) -> Result<Verdict, AllocError>
    requires capacity { capacity.now ≡ capacity_of design.now }
    requires loads { AreLoadsBy design.now (route_edges routes.now) loads.now }
    requires routes { HaveTrees design.now routes.now }
    requires cost { via_cost ≤ 1000 }
    ensures verdict { IfOk result (IsVerdict design.now via_cost (route_edges routes.now)) }
    ensures trees { OnOk result (AreTrees design.now routes.now) }
{
    let mut tally = Tally::new(alloc);
    let mut index = NodeIndex::new(alloc, design.frame().shape.cells())?;
    for net in 0..design.nets() {
        if !design.routed(net) {
            continue;
        }
        tally.count_route(&mut index, design, routes, net)?;
    }
    Ok(tally.verdict(capacity, loads, via_cost))
}
