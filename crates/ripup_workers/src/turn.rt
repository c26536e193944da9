//! A worker's attempt at a net.
ghost use Rattle.std.specs.Prelude.{◌≡◌, ◌<◌, ◌≤◌, ◌∷◌, [], ℕ, List, Option, IfOk, IfSome, OnOk, IsTrue};
ghost use Rattle.book_state.specs.Replicas.{StandsFor};
ghost use Rattle.book_state.specs.declared.entry.PlanKind.TheVariants.{Pattern};
ghost use Rattle.gr_base.specs.Designs.{is_routed};
ghost use Rattle.gr_base.specs.Limits.{most_rounds};
ghost use Rattle.grid_demand.specs.Tables.{capacity_of};
ghost use Rattle.run_histories.specs.Attempts.{kind_of, Rests, Claiming};
ghost use Rattle.run_histories.specs.Rounds.{slacks_of_turn, IsPlanFor};
ghost use Rattle.run_histories.specs.RunHistories.{Setting};
ghost use Rattle.ripup_workers.specs.Foresight.{IsForeseen};
ghost use Rattle.ripup_workers.specs.Turning.{HasCapacity, IsOver, HasFollowed, HasTried, HasLedOn, WasPlanned};
ghost use Rattle.ripup_workers.specs.Working.{HasLed, HasAttempted};

use crate::asked::Task;
use crate::foresight::Foreseen;
use crate::ground::Ground;
use crate::ready::ready_memory;
use crate::wish::Wish;
use crate::worker::Worker;
use book_state::{Reply, Sought};
use gr_base::RouteTree;
use net_plan::Planner;
use run_histories::{Gate, Stop, kind_of};
use std::alloc::AllocError;
use std::sync::Wait;
use std::thread::Threads;
use track_book::{BookName, Visit};

impl<N: BookName, R: Threads + Wait + Sync, G: Gate> Ground<'_, N, R, G> {
    /// Attempts a net in a round, of which round 0 is the first. In round 0 it claims the net for its
    /// pattern plan at any demand. Later it releases the net, and claims it for its maze plan until a
    /// claim isn't answered `Full`: twice with room within capacity alone, and then at any demand. The
    /// first of these plans is made before the release, and release and claims stand under one hold of the
    /// lock where they can, so that others hardly ever see the book without the net.
    /// The only error is want of memory.
    pub(crate) fn attempt(
        &self,
        task: &Task,
        round: u32,
        net: u32,
        worker: &mut Worker<N>,
        planner: &mut Planner,
    ) -> Result<(), AllocError>
        requires capacity { N.capacity ≡ capacity_of task.now.design.now }
        requires round { round ≤ most_rounds }
        requires net { IsTrue (is_routed task.now.design.now net) }
        ensures { (t : Setting) → IsOver task.now.design.now task.now.rule.now.formula t →
            OnOk result (HasAttempted t round (net ∷ []) worker.old.pass worker.new.pass) }
    {
        let number = worker.pass.number();
        self.gate.pass(self.rt, number, Stop::Turn { net, round });
        let within = net < task.design.nets();
        prove!(within);
        let wish = Wish {
            alloc: self.alloc,
            design: task.design,
            rule: task.rule,
            net,
            kind: kind_of(round),
        };
        let mut visit = Visit::new(self.book);
        if round == 0 {
            return self.claim_first(&wish, &mut visit, worker, planner);
        }
        let foreseen = self.foresee(&wish, &mut visit, worker, planner)?;
        worker.release(self.rt, &mut visit, net)?;
        self.claim_until_got(&wish, foreseen, &mut visit, worker, planner)
    }

    /// Claims the net for its plan at any demand.
    fn claim_first(
        &self,
        wish: &Wish<'_>,
        visit: &mut Visit<'_, N>,
        worker: &mut Worker<N>,
        planner: &mut Planner,
    ) -> Result<(), AllocError>
        requires design { HasCapacity wish.now.design.now N.capacity }
        requires kind { wish.now.kind ≡ Pattern }
        ensures { (t : Setting) → IsOver wish.now.design.now wish.now.rule.now.formula t →
            OnOk result (HasLed t 0 Rests Rests (wish.now.net ∷ []) worker.old.pass worker.new.pass) }
    {
        let tree = self.search(wish, visit, worker, planner)?;
        // Where others add entries too, they may wait at the lock.
        if !worker.holds_whole(visit) {
            ready_memory(wish.alloc);
        }
        self.claim(wish, tree, None, visit, worker)?;
        Ok(())
    }

    /// Claims the net, which is released, until a claim isn't answered `Full`.
    fn claim_until_got(
        &self,
        wish: &Wish<'_>,
        foreseen: Option<Foreseen>,
        visit: &mut Visit<'_, N>,
        worker: &mut Worker<N>,
        planner: &mut Planner,
    ) -> Result<(), AllocError>
        requires design { HasCapacity wish.now.design.now N.capacity }
        requires foreseen { IfSome foreseen (IsForeseen wish.now.design.now wish.now.rule.now.formula wish.now.net
            wish.now.kind worker.old.pass.seen) }
        ensures { (t : Setting) (round : ℕ) → IsOver wish.now.design.now wish.now.rule.now.formula t →
            0 < round → wish.now.kind ≡ kind_of round →
            OnOk result (HasLed t round (Claiming wish.now.net slacks_of_turn) Rests []
            worker.old.pass worker.new.pass) }
    {
        let tree = self.search_freed(wish, foreseen, visit, worker, planner)?;
        let Some(tree) = self.claim_within(wish, tree, visit, worker, planner)? else {
            return Ok(());
        };
        let Some(tree) = self.claim_within(wish, tree, visit, worker, planner)? else {
            return Ok(());
        };
        // This claim is never refused, so what came since the plan is looked at once more.
        let front = worker.pass.known();
        let tree = self.search_again(wish, tree, front, visit, worker, planner)?;
        self.claim(wish, tree, None, visit, worker)?;
        Ok(())
    }

    /// Claims the net for its plan with room within capacity alone. The result is its next plan where
    /// the claim was answered `Full`, and else None.
    fn claim_within(
        &self,
        wish: &Wish<'_>,
        tree: RouteTree,
        visit: &mut Visit<'_, N>,
        worker: &mut Worker<N>,
        planner: &mut Planner,
    ) -> Result<Option<RouteTree>, AllocError>
        requires design { HasCapacity wish.now.design.now N.capacity }
        requires plan { IsPlanFor wish.now.design.now wish.now.rule.now.formula
            worker.old.pass.seen wish.now.net wish.now.kind tree }
        ensures led { (t : Setting) (round : ℕ) (slacks : List (Option ℕ)) →
            IsOver wish.now.design.now wish.now.rule.now.formula t → 0 < round → wish.now.kind ≡ kind_of round →
            IfOk result (HasLedOn t round wish.now.net slacks worker.old.pass worker.new.pass) }
        ensures plan { IfOk result (λ next. IfSome next (IsPlanFor wish.now.design.now wish.now.rule.now.formula
            worker.new.pass.seen wish.now.net wish.now.kind)) }
    {
        let front = worker.pass.known();
        let same = tree.copy(wish.alloc)?;
        let reply = self.claim(wish, tree, Some(0), visit, worker)?;
        if !reply.is_full() {
            return Ok(None);
        }
        let next = self.search_again(wish, same, front, visit, worker, planner)?;
        Ok(Some(next))
    }

    /// Claims the net for its plan over all that the worker knows. The visit is inside from then on.
    fn claim(
        &self,
        wish: &Wish<'_>,
        tree: RouteTree,
        slack: Option<u32>,
        visit: &mut Visit<'_, N>,
        worker: &mut Worker<N>,
    ) -> Result<Reply, AllocError>
        requires design { HasCapacity wish.now.design.now N.capacity }
        requires plan { IsPlanFor wish.now.design.now wish.now.rule.now.formula
            worker.old.pass.seen wish.now.net wish.now.kind tree }
        ensures { (t : Setting) → IsOver wish.now.design.now wish.now.rule.now.formula t →
            IfOk result (λ reply. HasTried t wish.now.net wish.now.kind slack reply
            worker.old.pass worker.new.pass) }
    {
        let number = worker.pass.number();
        self.gate
            .pass(self.rt, number, Stop::Claim { net: wish.net });
        visit.enter(self.rt);
        worker.claim(self.rt, visit, wish.net, tree, slack, wish.kind)
    }

    /// The net's plan over what the book holds now, all of which the worker comes to know.
    pub(crate) fn search(
        &self,
        wish: &Wish<'_>,
        visit: &mut Visit<'_, N>,
        worker: &mut Worker<N>,
        planner: &mut Planner,
    ) -> Result<RouteTree, AllocError>
        requires { HasCapacity wish.now.design.now N.capacity }
        ensures learnt { (t : Setting) → IsOver wish.now.design.now wish.now.rule.now.formula t →
            OnOk result (HasFollowed t worker.old.pass worker.new.pass) }
        ensures plan { IfOk result (IsPlanFor wish.now.design.now wish.now.rule.now.formula
            worker.new.pass.seen wish.now.net wish.now.kind) }
    {
        worker.sync(self.rt, visit)?;
        self.plan(wish, visit, worker, planner)
    }

    /// The same, where `tree` is the net's plan over the first `front` entries. Where nothing was added
    /// since that may change it, it is the same tree.
    fn search_again(
        &self,
        wish: &Wish<'_>,
        tree: RouteTree,
        front: u64,
        visit: &mut Visit<'_, N>,
        worker: &mut Worker<N>,
        planner: &mut Planner,
    ) -> Result<RouteTree, AllocError>
        requires design { HasCapacity wish.now.design.now N.capacity }
        requires planned { WasPlanned wish.now.design.now wish.now.rule.now.formula wish.now.net wish.now.kind
            tree front worker.old.pass.seen }
        ensures learnt { (t : Setting) → IsOver wish.now.design.now wish.now.rule.now.formula t →
            OnOk result (HasFollowed t worker.old.pass worker.new.pass) }
        ensures plan { IfOk result (IsPlanFor wish.now.design.now wish.now.rule.now.formula
            worker.new.pass.seen wish.now.net wish.now.kind) }
    {
        let Some(window) = wish.window() else {
            return self.search(wish, visit, worker, planner);
        };
        let sought = Sought {
            net: wish.net,
            formula: wish.rule.formula(),
            window,
            tree: &tree,
        };
        let still = worker.sync_beside(self.rt, visit, front, &sought)?;
        if still {
            return Ok(tree);
        }
        self.plan(wish, visit, worker, planner)
    }

    /// The net's plan over all that the worker knows, for which its replica stands. Others can go on
    /// meanwhile, for the visit leaves.
    pub(crate) fn plan(
        &self,
        wish: &Wish<'_>,
        visit: &mut Visit<'_, N>,
        worker: &Worker<N>,
        planner: &mut Planner,
    ) -> Result<RouteTree, AllocError>
        requires design { HasCapacity wish.now.design.now N.capacity }
        requires stands { StandsFor N.capacity worker.now.pass.seen worker.now.replica }
        ensures { IfOk result (IsPlanFor wish.now.design.now wish.now.rule.now.formula
            worker.now.pass.seen wish.now.net wish.now.kind) }
    {
        let number = worker.pass.number();
        visit.leave();
        self.gate
            .pass(self.rt, number, Stop::Search { net: wish.net });
        wish.plan(planner, self.book.capacity(), worker.replica.loads())
    }
}
