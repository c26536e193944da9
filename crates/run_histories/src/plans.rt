//! How plans are made in rounds.
ghost use Rattle.std.specs.Prelude.{◌≡◌, ◌≤◌, List, IfOk, IsTrue};
ghost use Rattle.book_state.specs.Books.{AreLoadsOf};
ghost use Rattle.book_state.specs.declared.entry.Entry.{Entry};
ghost use Rattle.book_state.specs.declared.entry.PlanKind.TheVariants.{Given};
ghost use Rattle.gr_base.specs.Designs.{is_routed};
ghost use Rattle.gr_base.specs.Limits.{most_rounds};
ghost use Rattle.grid_demand.specs.Tables.{capacity_of};
ghost use Rattle.net_plan.specs.Prices.{HasBoundedDemand};
ghost use Rattle.run_histories.specs.Attempts.{kind_of};
ghost use Rattle.run_histories.specs.Rounds.{IsPlanFor};

use book_state::PlanKind;
use cost_rules::CostRule;
use gr_base::{Design, RouteTree};
use grid_demand::{Capacity, Loads};
use net_plan::{Planner, maze_plan, pattern_plan};
use std::alloc::{AllocError, Global};

/// By how many tiles the window of a net's pins grows on each side with each round.
const MARGIN: u32 = 4;

/// How plans are made in a round, of which there are at most 64: by patterns in round 0, and later by a
/// maze search in the box of the pins, four tiles wider on each side for each round.
pub fn kind_of(round: u32) -> PlanKind
    requires { round ≤ most_rounds }
    ensures { result ≡ kind_of round }
{
    if round == 0 {
        return PlanKind::Pattern;
    }
    PlanKind::Maze {
        margin: MARGIN * round,
    }
}

/// A routed net's plan of a kind, by patterns or a maze search, over the loads of a design, in which no
/// wire edge has a demand above 2^62. The only error is want of memory.
pub fn plan_of(
    alloc: Global,
    planner: &mut Planner,
    design: &Design,
    capacity: &Capacity,
    loads: &Loads,
    net: u32,
    kind: PlanKind,
    rule: &CostRule,
) -> Result<RouteTree, AllocError>
    requires net { IsTrue (is_routed design.now net) }
    requires kind { kind ≡ Given → ⊥ }
    requires capacity { capacity.now ≡ capacity_of design.now }
    requires loads { loads.now.shape ≡ design.now.frame.shape }
    requires demand { HasBoundedDemand loads.now }
    ensures plan { (h : List Entry) → AreLoadsOf (capacity_of design.now) h loads.now →
        IfOk result (IsPlanFor design.now rule.now.formula h net kind) }
    ensures shape { IfOk result (λ tree. tree.shape ≡ loads.now.shape) }
{
    match kind {
        PlanKind::Pattern => pattern_plan(alloc, planner, design, capacity, loads, net, rule),
        PlanKind::Maze { margin } => {
            maze_plan(alloc, planner, design, capacity, loads, net, margin, rule)
        }
        PlanKind::Given => unreachable!(),
    }
}
