//! The rule of a library with inverters: the picked legal placement, where one is legal.
use crate::planner::PolarPlanner;
use buffer_plan::{Loaded, NetPlanner};
use elmore_delay::Plan;
use ginneken_lists::Steps;
use std::alloc::{AllocError, Global};
use std::sync::ledger::Ledger;

impl NetPlanner for PolarPlanner {
    ghost use Rattle.polar_lists.specs.PolarPlans.{legal_plan};

    ghost rule = { legal_plan };

    fn ready(alloc: Global) -> PolarPlanner {
        PolarPlanner::new(alloc)
    }

    fn plan_net<L: Ledger>(
        &mut self,
        alloc: Global,
        net: &Loaded<'_>,
        steps: &mut Steps<L>,
    ) -> Result<Option<Plan>, AllocError> {
        self.legal_plan(alloc, net.tree, net.library, net.loading, steps)
    }
}
