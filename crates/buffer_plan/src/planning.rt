//! The rule of buffers that invert nothing: the picked placement.
use crate::loaded::Loaded;
use crate::net_planner::NetPlanner;
use crate::planner::Planner;
use elmore_delay::Plan;
use ginneken_lists::Steps;
use std::alloc::{AllocError, Global};
use std::sync::ledger::Ledger;

impl NetPlanner for Planner {
    ghost use Rattle.buffer_plan.specs.Rules.{picked_plan};

    ghost rule = { picked_plan };

    fn ready(alloc: Global) -> Planner {
        Planner::new(alloc)
    }

    fn plan_net<L: Ledger>(
        &mut self,
        alloc: Global,
        net: &Loaded<'_>,
        steps: &mut Steps<L>,
    ) -> Result<Option<Plan>, AllocError> {
        let plan = self.plan(alloc, net.tree, net.library, net.loading, steps)?;
        Ok(Some(plan))
    }
}
