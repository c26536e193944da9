//! Plans of buffers for the nets of a design.
ghost use Rattle.std.specs.Prelude.{◌≡◌, ℕ, ◌<◌, length, Some, None, IfOk, replicate, slice_set};
ghost use Rattle.std.specs.Option.{option_copied};
ghost use Rattle.elmore_delay.specs.PlanLists.{plan_at};

use crate::placement::Placement;
use std::alloc::{AllocError, Global};
use std::marker::Model;

/// A placement of buffers in a net's tree, and the required time at the driver with it, in half
/// femtoseconds.
#[derive(Debug, Drop)]
pub struct Plan {
    pub placement: Placement,
    pub required: i128,
}

/// At most one plan for each net of a design. Nets count from 0.
#[derive(Debug, Drop)]
pub struct Plans {
    plans: Vec<Option<Plan>>,
}

impl Model for Plans {
    ghost use Rattle.std.specs.Prelude.{List, Option};
    ghost use Rattle.elmore_delay.specs.declared.plans.Plan.{Plan};

    ghost Value = { List (Option Plan) };

    ghost view = { λ p. p.plans.items };
}

impl Plans {
    /// Plans of this many nets, none of which has one. The only error is want of memory.
    pub fn new(alloc: Global, nets: u32) -> Result<Plans, AllocError>
        ensures { IfOk result (λ plans. plans ≡ replicate nets None) }
    {
        let mut plans = Vec::with_capacity(alloc, nets as usize)?;
        for _ in 0..nets {
            plans.push(None)?;
        }
        Ok(Plans { plans })
    }

    /// The plans of these nets, net by net.
    pub fn of(plans: Vec<Option<Plan>>) -> Plans
        ensures { result ≡ plans.items }
    {
        Plans { plans }
    }

    /// Sets a net's plan. A plan that was set for it before is dropped.
    pub fn set(&mut self, net: u32, plan: Plan)
        requires { net < length self.old }
        ensures { self.new ≡ slice_set self.old net (Some plan) }
    {
        self.plans[net as usize] = Some(plan);
    }

    /// A net's plan. None exactly where none was set.
    pub fn get(&self, net: u32) -> Option<&Plan>
        ensures { option_copied result ≡ plan_at self.now net }
    {
        self.plans.get(net as usize)?.as_ref()
    }
}
