//! What plans are made from.
ghost use Rattle.std.specs.Prelude.{◌≡◌, ◌≤◌, List, IfOk, IsTrue};
ghost use Rattle.book_state.specs.Books.{AreLoadsOf};
ghost use Rattle.book_state.specs.declared.entry.Entry.{Entry};
ghost use Rattle.gr_base.specs.Designs.{is_routed};
ghost use Rattle.gr_base.specs.Limits.{most_rounds};
ghost use Rattle.grid_demand.specs.Tables.{capacity_of};
ghost use Rattle.net_plan.specs.Prices.{HasBoundedDemand};
ghost use Rattle.run_histories.specs.Attempts.{kind_of};
ghost use Rattle.run_histories.specs.Rounds.{IsPlanFor};
ghost use Rattle.batch_rounds.specs.SecondTries.{IsNoted};

use crate::again::demand_from;
use crate::asked::Asked;
use crate::seat::Planned;
use book_state::BookState;
use cost_rules::CostRule;
use gr_base::{Design, RouteTree};
use grid_demand::{Capacity, Loads};
use net_plan::Planner;
use run_histories::{kind_of, plan_of};
use std::alloc::{AllocError, Global};

/// What the plans of a round are made from: the demand and the marks of one history.
#[derive(Drop)]
pub(crate) struct Basis<'a> {
    pub(crate) alloc: Global,
    pub(crate) design: &'a Design,
    pub(crate) rule: &'a CostRule,
    pub(crate) round: u32,
    pub(crate) capacity: &'a Capacity,
    pub(crate) loads: &'a Loads,
    ghost few: { round ≤ most_rounds },
    ghost capacity_is: { capacity.now ≡ capacity_of design.now },
    ghost shape: { loads.now.shape ≡ design.now.frame.shape },
    ghost bounded: { HasBoundedDemand loads.now },
}

impl<'a> Basis<'a> {
    /// What the plans of a round are made from over a book's history.
    pub(crate) fn over(
        alloc: Global,
        asked: &Asked<'a>,
        round: u32,
        book: &'a BookState,
    ) -> Basis<'a>
        requires capacity { book.now.capacity ≡ capacity_of asked.now.design.now }
        requires round { round ≤ asked.now.rounds }
        ensures design { result.design.now ≡ asked.now.design.now }
        ensures formula { result.rule.now.formula ≡ asked.now.rule.now.formula }
        ensures round { result.round ≡ round }
        ensures loads { AreLoadsOf (capacity_of asked.now.design.now) book.now.history result.loads.now }
    {
        let fits = asked.design.frame().shape == book.capacity().shape();
        prove!(fits);
        Basis {
            alloc,
            design: asked.design,
            rule: asked.rule,
            round,
            capacity: book.capacity(),
            loads: book.loads(),
        }
    }

    /// A net's plan. The only error is want of memory.
    pub(crate) fn plan(&self, planner: &mut Planner, net: u32) -> Result<RouteTree, AllocError>
        requires { IsTrue (is_routed self.now.design.now net) }
        ensures plan { (h : List Entry) → AreLoadsOf (capacity_of self.now.design.now) h self.now.loads.now →
            IfOk result (IsPlanFor self.now.design.now self.now.rule.now.formula h net (kind_of self.now.round)) }
        ensures shape { IfOk result (λ tree. tree.shape ≡ self.now.loads.now.shape) }
    {
        plan_of(
            self.alloc,
            planner,
            self.design,
            self.capacity,
            self.loads,
            net,
            kind_of(self.round),
            self.rule,
        )
    }

    /// The same, with the demand from its cells.
    pub(crate) fn noted_plan(&self, planner: &mut Planner, net: u32) -> Result<Planned, AllocError>
        requires { IsTrue (is_routed self.now.design.now net) }
        ensures { (h : List Entry) → AreLoadsOf (capacity_of self.now.design.now) h self.now.loads.now →
            IfOk result (IsNoted self.now.design.now self.now.rule.now.formula self.now.round h net) }
    {
        let tree = self.plan(planner, net)?;
        let demand = demand_from(self.loads, &tree);
        Ok(Planned { tree, demand })
    }
}
