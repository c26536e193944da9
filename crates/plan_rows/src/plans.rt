//! Plans of a net over empty loads.
ghost use Rattle.std.specs.Prelude.{◌≡◌, IfOk, IsTrue};
ghost use Rattle.gr_base.specs.Designs.{is_routed};
ghost use Rattle.grid_demand.specs.Tables.{capacity_of};
ghost use Rattle.net_plan.specs.Prices.{HasBoundedDemand};

use crate::own_rule::flat_by_cases;
use crate::trees::tell_nodes;
use cost_rules::{CostRule, Formula, first_cost};
use gr_base::Design;
use grid_demand::{Capacity, Loads};
use net_plan::{Planner, maze_plan, pattern_plan};
use std::alloc::{AllocError, Global};
use std::io;

/// Prints the plan of a design's first net that a line asks for.
pub(crate) fn tell<R: Print>(
    rt: &R,
    alloc: Global,
    design: &Design,
    command: &str,
    margin: u32,
) -> io::Result<()>
    requires { IsTrue (is_routed design.now 0) }
{
    let capacity = Capacity::of(alloc, design)?;
    tell_over(rt, alloc, design, &capacity, command, margin)
}

/// Prints it by the design's capacity.
fn tell_over<R: Print>(
    rt: &R,
    alloc: Global,
    design: &Design,
    capacity: &Capacity,
    command: &str,
    margin: u32,
) -> io::Result<()>
    requires net { IsTrue (is_routed design.now 0) }
    requires capacity { capacity.now ≡ capacity_of design.now }
{
    let loads = empty_loads(alloc, capacity)?;
    match command {
        "pattern" => tell_pattern(rt, alloc, design, capacity, &loads),
        "search" => {
            let rule = CostRule::new(Formula::First, first_cost);
            tell_maze(rt, alloc, design, capacity, &loads, margin, &rule)
        }
        _ => {
            let rule = CostRule::new(Formula::Flat, flat_by_cases);
            tell_maze(rt, alloc, design, capacity, &loads, margin, &rule)
        }
    }
}

/// Loads without demand and marks.
fn empty_loads(alloc: Global, capacity: &Capacity) -> Result<Loads, AllocError>
    ensures shape { IfOk result (λ loads. loads.shape ≡ capacity.now.shape) }
    ensures demand { IfOk result HasBoundedDemand }
{
    Loads::new(alloc, capacity)
}

/// Prints the pattern plan.
fn tell_pattern<R: Print>(
    rt: &R,
    alloc: Global,
    design: &Design,
    capacity: &Capacity,
    loads: &Loads,
) -> io::Result<()>
    requires net { IsTrue (is_routed design.now 0) }
    requires capacity { capacity.now ≡ capacity_of design.now }
    requires shape { loads.now.shape ≡ design.now.frame.shape }
    requires demand { HasBoundedDemand loads.now }
{
    let rule = CostRule::new(Formula::First, first_cost);
    let mut planner = Planner::new(alloc)?;
    let tree = pattern_plan(alloc, &mut planner, design, capacity, loads, 0, &rule)?;
    tell_nodes(rt, &tree)
}

/// Prints the maze plan with this margin and by this rule.
fn tell_maze<R: Print>(
    rt: &R,
    alloc: Global,
    design: &Design,
    capacity: &Capacity,
    loads: &Loads,
    margin: u32,
    rule: &CostRule,
) -> io::Result<()>
    requires net { IsTrue (is_routed design.now 0) }
    requires capacity { capacity.now ≡ capacity_of design.now }
    requires shape { loads.now.shape ≡ design.now.frame.shape }
    requires demand { HasBoundedDemand loads.now }
{
    let mut planner = Planner::new(alloc)?;
    let tree = maze_plan(
        alloc,
        &mut planner,
        design,
        capacity,
        loads,
        0,
        margin,
        rule,
    )?;
    tell_nodes(rt, &tree)
}
