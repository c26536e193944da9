//! What plans nets by a rule.
ghost use Rattle.std.specs.Prelude.{◌≡◌, Option, IfOk, IfSome, OnOk};
ghost use Rattle.elmore_delay.specs.Loadings.{LoadingView, IsLoading};
ghost use Rattle.elmore_delay.specs.declared.plans.Plan.{Plan as PlanView};
ghost use Rattle.buffer_plan.specs.Best.{IsAllowed};

use crate::loaded::Loaded;
use elmore_delay::Plan;
use ginneken_lists::Steps;
use std::alloc::{AllocError, Global};
use std::sync::ledger::Ledger;

/// What plans nets, one after the other, and keeps the memory of one for the next.
pub trait NetPlanner: Drop {
    /// The plan that a net gets by its loading, or that it gets none.
    ghost rule: { LoadingView → Option PlanView };

    /// A planner, which takes no memory yet.
    fn ready(alloc: Global) -> Self;

    /// What a net gets. The only error is want of memory.
    fn plan_net<L: Ledger>(
        &mut self,
        alloc: Global,
        net: &Loaded<'_>,
        steps: &mut Steps<L>,
    ) -> Result<Option<Plan>, AllocError>
        ensures plan { IfOk result (λ plan. plan ≡ rule net.now.loading.now) }
        ensures allowed { IfOk result (λ plan. IfSome plan (λ p. IsAllowed net.now.loading.now p.placement)) }
        ensures loading { OnOk result (IsLoading net.now.loading.now) };
}
