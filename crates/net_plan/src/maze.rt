//! Makes maze plans, walk after walk to the nearest pin that is left; of the planner it uses the room for mazes alone.
ghost use Rattle.std.specs.Prelude.{◌≡◌, ◌<◌, Some, All, IfOk, IsTrue, not, filter, length, slice_get};
ghost use Rattle.gr_base.specs.Designs.{is_routed, pins_at};
ghost use Rattle.gr_base.specs.Plans.{IsRouteOf};
ghost use Rattle.gr_base.specs.Grid.{cells_of};
ghost use Rattle.gr_base.specs.Trees.{TreeView, cell_at, holds, is_among};
ghost use Rattle.gr_base.specs.declared.frame.Net.{Net};
ghost use Rattle.grid_demand.specs.Tables.{capacity_of};
ghost use Rattle.maze_route.specs.Windows.{IsWindow, IsPassable, LieIn};
ghost use Rattle.net_plan.specs.Mazes.{missing, driver_tree, GrowsTo, IsMaze, IsOnlyMaze};
ghost use Rattle.net_plan.specs.Prices.{HasBoundedDemand};

use crate::net_costs::NetCosts;
use crate::planner::Planner;
use crate::window::window_of;
use cost_rules::CostRule;
use gr_base::{Design, RouteTree, Shape};
use grid_demand::{Capacity, Loads};
use maze_route::{MazeRoom, RunCosts, Window, least_walk_by};
use std::alloc::{AllocError, Global};

/// The maze plan of a routed net over the loads of a design, in which no wire edge has a demand
/// above 2^62.
///
/// The tree starts at the driver's cell. While a pin's cell isn't in it, the least walk to the
/// nearest such cell is attached, inside the least box of the net's pins grown by `margin` columns
/// and rows on each side and cut at the chip's border. The only error is want of memory.
pub fn maze_plan(
    alloc: Global,
    planner: &mut Planner,
    design: &Design,
    capacity: &Capacity,
    loads: &Loads,
    net: u32,
    margin: u32,
    rule: &CostRule,
) -> Result<RouteTree, AllocError>
    requires net { IsTrue (is_routed design.now net) }
    requires capacity { capacity.now ≡ capacity_of design.now }
    requires loads { loads.now.shape ≡ design.now.frame.shape }
    requires demand { HasBoundedDemand loads.now }
    ensures plan { IfOk result (IsMaze capacity.now loads.now rule.now.formula net (pins_at design.now net) margin) }
    ensures only { IfOk result (IsOnlyMaze capacity.now loads.now rule.now.formula net
        (pins_at design.now net) margin) }
    ensures routes { (wanted : Net) → slice_get design.now.nets net ≡ Some wanted →
        IfOk result (IsRouteOf design.now.frame.shape wanted) }
{
    let costs = NetCosts::new(design, capacity, loads, net, rule);
    let shape = design.frame().shape;
    let pins = design.net(net).pins.as_slice();
    let window = window_of(shape, pins, margin);
    grow(alloc, &mut planner.maze, &costs, shape, window, pins)
}

/// The tree that grows in a window from the first pin's cell to the cells of all pins.
fn grow<C: RunCosts>(
    alloc: Global,
    room: &mut MazeRoom,
    costs: &C,
    shape: Shape,
    window: Window,
    pins: &[u32],
) -> Result<RouteTree, AllocError>
    requires grid { C.grid costs.now ≡ shape }
    requires window { IsWindow shape window }
    requires passable { IsPassable shape (C.ways costs.now) window }
    requires some { 0 < length pins.now }
    requires cells { All (λ pin. pin < cells_of shape) pins.now }
    requires pins { LieIn shape window pins.now }
    ensures grown { IfOk result (GrowsTo window (C.price costs.now) pins.now (driver_tree shape pins.now)) }
    ensures shape { IfOk result (λ t. t.shape ≡ shape) }
    ensures driver { IfOk result (λ t. cell_at t.nodes 0 ≡ slice_get pins.now 0) }
    ensures pins { IfOk result (λ t. All (λ pin. IsTrue (holds t pin)) pins.now) }
{
    room.begin(alloc, costs, shape, window)?;
    let mut tree = RouteTree::start(alloc, shape, pins[0])?;
    let mut goals = missing(alloc, &tree, pins)?;
    while !goals.is_empty() {
        let walk = least_walk_by(alloc, room, costs, window, &tree, &goals)?;
        tree.attach(walk.as_slice())?;
        goals = others(alloc, &goals, walk.as_slice())?;
    }
    tree.trim();
    Ok(tree)
}

/// The pins whose cells aren't in the tree.
fn missing(alloc: Global, tree: &RouteTree, pins: &[u32]) -> Result<Vec<u32>, AllocError>
    ensures { IfOk result (λ goals. goals.items ≡ missing tree.now pins.now) }
{
    let mut goals = Vec::with_capacity(alloc, pins.len())?;
    for &pin in pins {
        if tree.node_at(pin).is_none() {
            goals.push(pin)?;
        }
    }
    Ok(goals)
}

/// The goals that a walk doesn't pass.
fn others(alloc: Global, goals: &[u32], walk: &[u32]) -> Result<Vec<u32>, AllocError>
    ensures { IfOk result (λ others. others.items ≡ filter (λ goal. not (is_among walk.now goal)) goals.now) }
{
    let mut others = Vec::with_capacity(alloc, goals.len())?;
    for &goal in goals {
        if !walk.contains(&goal) {
            others.push(goal)?;
        }
    }
    Ok(others)
}
