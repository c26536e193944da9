//! Makes pattern plans: a flat tree, then the first least assignment of its edges, then the tree raised from it.
ghost use Rattle.std.specs.Prelude.{◌≡◌, Some, slice_get, IfOk, IsTrue};
ghost use Rattle.gr_base.specs.Designs.{is_routed, pins_at};
ghost use Rattle.gr_base.specs.Plans.{IsRouteOf};
ghost use Rattle.gr_base.specs.Trees.{TreeView, edges_of};
ghost use Rattle.gr_base.specs.declared.frame.Net.{Net};
ghost use Rattle.gr_base.specs.declared.grid.Edge.{Edge};
ghost use Rattle.grid_demand.specs.Tables.{capacity_of};
ghost use Rattle.net_plan.specs.Patterns.{IsPattern, IsOnlyPattern};
ghost use Rattle.net_plan.specs.Prices.{HasBoundedDemand};

use crate::flat::flat_tree;
use crate::net_costs::NetCosts;
use crate::planner::Planner;
use cost_rules::CostRule;
use gr_base::{Design, RouteTree};
use grid_demand::{Capacity, Loads};
use layer_assign::{assign, raise};
use std::alloc::{AllocError, Global};

/// The pattern plan of a routed net over the loads of a design, in which no wire edge has a demand
/// above 2^62.
///
/// The tiles of the net's pins are joined by the flat walks of their topology, each step at the
/// least cost over the layers. The edges of this flat tree then get the first assignment of layers
/// of least cost, and the tree is raised from it. It starts at the driver's cell. The only error is
/// want of memory.
pub fn pattern_plan(
    alloc: Global,
    planner: &mut Planner,
    design: &Design,
    capacity: &Capacity,
    loads: &Loads,
    net: u32,
    rule: &CostRule,
) -> Result<RouteTree, AllocError>
    requires net { IsTrue (is_routed design.now net) }
    requires capacity { capacity.now ≡ capacity_of design.now }
    requires loads { loads.now.shape ≡ design.now.frame.shape }
    requires demand { HasBoundedDemand loads.now }
    ensures plan { IfOk result (IsPattern capacity.now loads.now rule.now.formula net (pins_at design.now net)) }
    ensures only { IfOk result (IsOnlyPattern capacity.now loads.now rule.now.formula net (pins_at design.now net)) }
    ensures routes { (wanted : Net) → slice_get design.now.nets net ≡ Some wanted →
        IfOk result (IsRouteOf design.now.frame.shape wanted) }
{
    let costs = NetCosts::new(design, capacity, loads, net, rule);
    planner.plan_by(alloc, design, &costs)
}

impl Planner {
    /// The pattern plan of a routed net by what edges cost it.
    fn plan_by(
        &mut self,
        alloc: Global,
        design: &Design,
        costs: &NetCosts<'_>,
    ) -> Result<RouteTree, AllocError>
        requires net { IsTrue (is_routed design.now costs.now.net) }
        requires capacity { costs.now.capacity.now ≡ capacity_of design.now }
        ensures plan { let costs = costs.now in IfOk result (IsPattern costs.capacity.now costs.loads.now
            costs.rule.now.formula costs.net (pins_at design.now costs.net)) }
        ensures routes { (wanted : Net) → slice_get design.now.nets costs.now.net ≡ Some wanted →
            IfOk result (IsRouteOf design.now.frame.shape wanted) }
    {
        let pins = design.net(costs.net).pins.as_slice();
        let shape = costs.capacity.shape();
        self.fit(alloc, shape)?;
        let flat = flat_tree(alloc, design, costs, pins, &mut self.flat)?;
        let layers = assign(alloc, costs, shape, &flat, pins, &mut self.layers)?;
        raise(alloc, shape, &flat, &layers, pins, &mut self.layers)
    }
}
