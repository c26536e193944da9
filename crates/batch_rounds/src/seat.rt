//! Seats, at which the nets of a batch are planned side by side.
ghost use Rattle.std.specs.Prelude.{◌≡◌, ◌<◌, ◌≤◌, ℕ, List, All, Some, OnOk, IsSome, length, Ok};
ghost use Rattle.batch_rounds.specs.Seats.{IsShare, plan_for, HasPlanned};
ghost use Rattle.gr_base.specs.Designs.{AreRouted};

use crate::basis::Basis;
use crate::claims::CLAIMANT;
use gr_base::RouteTree;
use net_plan::Planner;
use run_histories::{Gate, Stop};
use std::alloc::{AllocError, Global};
use std::sync::Wait;
use std::thread::Threads;

/// A net's plan, and the demand for the wire edges that begin at its cells, together, over which it was
/// made.
#[derive(Drop)]
pub(crate) struct Planned {
    pub(crate) tree: RouteTree,
    pub(crate) demand: u128,
}

/// A seat: what one thread plans its nets of a batch with, and the plans that it made. It serves batch
/// after batch.
#[derive(Drop)]
pub(crate) struct Seat {
    pub(crate) planner: Planner,
    pub(crate) plans: Vec<Option<Planned>>,
    /// Memory may have been wanting.
    pub(crate) done: Result<(), AllocError>,
}

impl Seat {
    /// Plans the nets of a batch from the first on, each so many places behind the one before.
    pub(crate) fn plan_share<R: Threads + Wait + Sync, G: Gate>(
        &mut self,
        rt: &R,
        gate: &G,
        basis: &Basis<'_>,
        nets: &[u32],
        first: usize,
        count: usize,
    )
        requires share { IsShare first count nets.now }
        requires nets { AreRouted basis.now.design.now nets.now }
        ensures { self.new.done ≡ Ok tt → HasPlanned basis.now.design.now basis.now.rule.now.formula basis.now.round
            basis.now.loads.now nets.now first count self.new }
    {
        self.done = self.plan_each(rt, gate, basis, nets, first, count);
    }

    /// The same. The only error is want of memory.
    fn plan_each<R: Threads + Wait + Sync, G: Gate>(
        &mut self,
        rt: &R,
        gate: &G,
        basis: &Basis<'_>,
        nets: &[u32],
        first: usize,
        count: usize,
    ) -> Result<(), AllocError>
        requires share { IsShare first count nets.now }
        requires nets { AreRouted basis.now.design.now nets.now }
        ensures { OnOk result (HasPlanned basis.now.design.now basis.now.rule.now.formula basis.now.round
            basis.now.loads.now nets.now first count self.new) }
    {
        self.plans.clear();
        let mut at = first;
        while at < nets.len() {
            let net = nets[at];
            gate.pass(
                rt,
                CLAIMANT,
                Stop::Turn {
                    net,
                    round: basis.round,
                },
            );
            let plan = basis.noted_plan(&mut self.planner, net)?;
            self.plans.push(Some(plan))?;
            at += count;
        }
        Ok(())
    }
}

/// Want of memory, if it was wanting at a seat.
pub(crate) fn all_done(seats: &[Seat]) -> Result<(), AllocError>
    ensures { OnOk result (All (λ seat. seat.done ≡ Ok tt) seats.now) }
{
    for seat in seats {
        seat.done?;
    }
    Ok(())
}

/// Takes the plan for a place in a batch, whose places went to the seats in turn.
pub(crate) fn take_plan(seats: &mut [Seat], place: usize) -> Planned
    requires some { 0 < length seats.old }
    requires there { IsSome (plan_for seats.old place) }
    ensures plan { plan_for seats.old place ≡ Some result }
    ensures count { length seats.new ≡ length seats.old }
    ensures others { (other : ℕ) → (other ≡ place → ⊥) → plan_for seats.new other ≡ plan_for seats.old other }
{
    let count = seats.len();
    let Some(plan) = seats[place % count].plans[place / count].take() else {
        unreachable!()
    };
    plan
}
