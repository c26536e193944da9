//! What is planned for a net.
ghost use Rattle.std.specs.Prelude.{◌≡◌, List, IfOk, IfSome, IsTrue};
ghost use Rattle.book_state.specs.Books.{AreLoadsOf};
ghost use Rattle.book_state.specs.declared.entry.Entry.{Entry};
ghost use Rattle.book_state.specs.declared.entry.PlanKind.TheVariants.{Given};
ghost use Rattle.gr_base.specs.Designs.{is_routed};
ghost use Rattle.grid_demand.specs.Tables.{capacity_of};
ghost use Rattle.net_plan.specs.Prices.{HasBoundedDemand};
ghost use Rattle.run_histories.specs.Rounds.{IsPlanFor};
ghost use Rattle.ripup_workers.specs.Turning.{IsWindowOf};

use book_state::PlanKind;
use cost_rules::CostRule;
use gr_base::{Design, RouteTree};
use grid_demand::{Capacity, Loads};
use maze_route::Window;
use net_plan::{Planner, maze_window};
use run_histories::plan_of;
use std::alloc::{AllocError, Global};

/// A net that is to be planned, and what its plans are made with.
#[derive(Drop)]
pub(crate) struct Wish<'a> {
    pub(crate) alloc: Global,
    pub(crate) design: &'a Design,
    pub(crate) rule: &'a CostRule,
    pub(crate) net: u32,
    pub(crate) kind: PlanKind,
    ghost routed: { IsTrue (is_routed design.now net) },
    ghost planned: { kind ≡ Given → ⊥ },
}

impl Wish<'_> {
    /// The net's plan over loads.
    pub(crate) fn plan(
        &self,
        planner: &mut Planner,
        capacity: &Capacity,
        loads: &Loads,
    ) -> Result<RouteTree, AllocError>
        requires capacity { capacity.now ≡ capacity_of self.now.design.now }
        requires loads { loads.now.shape ≡ self.now.design.now.frame.shape }
        requires demand { HasBoundedDemand loads.now }
        ensures { (h : List Entry) → AreLoadsOf (capacity_of self.now.design.now) h loads.now →
            IfOk result (IsPlanFor self.now.design.now self.now.rule.now.formula h self.now.net self.now.kind) }
    {
        plan_of(
            self.alloc,
            planner,
            self.design,
            capacity,
            loads,
            self.net,
            self.kind,
            self.rule,
        )
    }

    /// The window outside of which the net's plan asks for no demand and no marks, where there is one.
    pub(crate) fn window(&self) -> Option<Window>
        ensures { IfSome result (IsWindowOf self.now.design.now self.now.net self.now.kind) }
    {
        match self.kind {
            PlanKind::Pattern | PlanKind::Given => None,
            PlanKind::Maze { margin } => Some(maze_window(self.design, self.net, margin)),
        }
    }
}
