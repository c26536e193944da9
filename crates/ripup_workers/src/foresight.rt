//! Plans for a net that are made before it is released.
//!
//! While a net is out of the book, others plan as if it took nothing. With several workers nets of one
//! crowded place would then be out at the same time, and each would find room there that isn't. So a
//! worker searches while the book has the net, and releases it only then.
ghost use Rattle.std.specs.Prelude.{◌≡◌, ℕ, [], length, IfOk, IfSome, OnOk, IsTrue};
ghost use Rattle.book_state.specs.Replicas.{StandsFor};
ghost use Rattle.run_histories.specs.Attempts.{Rests};
ghost use Rattle.run_histories.specs.Rounds.{IsPlanFor};
ghost use Rattle.run_histories.specs.RunHistories.{Setting};
ghost use Rattle.ripup_workers.specs.Foresight.{IsForeseen};
ghost use Rattle.ripup_workers.specs.Turning.{HasCapacity, IsOver, HasFollowed};
ghost use Rattle.ripup_workers.specs.Working.{HasLed};

use crate::ground::Ground;
use crate::wish::Wish;
use crate::worker::Worker;
use book_state::Sought;
use cost_rules::Formula;
use gr_base::RouteTree;
use maze_route::Window;
use net_plan::Planner;
use run_histories::{Gate, Stop};
use std::alloc::AllocError;
use std::sync::Wait;
use std::thread::Threads;
use track_book::{BookName, Visit};

/// How often a net is planned before its release at most. Where nearly full edges cost more, nets of one place
/// seldom want the same edge, and a second plan lowers no overflow.
fn most_plans(formula: Formula) -> u32 {
    match formula {
        Formula::First | Formula::Steep | Formula::Flat => 8,
        Formula::Near => 1,
    }
}

/// A net's plan in a window, as the net's release behind the first `front` entries leaves it.
#[derive(Drop)]
pub(crate) struct Foreseen {
    pub(crate) tree: RouteTree,
    pub(crate) front: u64,
    pub(crate) window: Window,
}

impl<N: BookName, R: Threads + Wait + Sync, G: Gate> Ground<'_, N, R, G> {
    /// The plan that the net will have once it is released. Where there is one, the visit is inside, and
    /// the worker knows all that there is. It is made anew, but not without end, where what others added
    /// while it was made may change it. None where that went on, the net isn't booked, or the plan is a
    /// pattern's, which has no window.
    pub(crate) fn foresee(
        &self,
        wish: &Wish<'_>,
        visit: &mut Visit<'_, N>,
        worker: &mut Worker<N>,
        planner: &mut Planner,
    ) -> Result<Option<Foreseen>, AllocError>
        requires { HasCapacity wish.now.design.now N.capacity }
        ensures led { (t : Setting) (round : ℕ) → IsOver wish.now.design.now wish.now.rule.now.formula t →
            OnOk result (HasLed t round Rests Rests [] worker.old.pass worker.new.pass) }
        ensures foreseen { IfOk result (λ plan. IfSome plan (IsForeseen wish.now.design.now wish.now.rule.now.formula
            wish.now.net wish.now.kind worker.new.pass.seen)) }
    {
        worker.sync(self.rt, visit)?;
        for _ in 0..most_plans(wish.rule.formula()) {
            let Some(plan) = self.plan_ahead(wish, visit, worker, planner)? else {
                return Ok(None);
            };
            // What came while the plan was made is read before the visit enters, so that others wait for
            // little.
            let Some(plan) = self.kept(wish, plan, visit, worker)? else {
                continue;
            };
            visit.enter(self.rt);
            if let Some(plan) = self.kept(wish, plan, visit, worker)? {
                return Ok(Some(plan));
            }
        }
        Ok(None)
    }

    /// The plan over all that the worker knows, as if the net was released.
    fn plan_ahead(
        &self,
        wish: &Wish<'_>,
        visit: &mut Visit<'_, N>,
        worker: &mut Worker<N>,
        planner: &mut Planner,
    ) -> Result<Option<Foreseen>, AllocError>
        requires design { HasCapacity wish.now.design.now N.capacity }
        requires held { worker.old.pass.held ≡ length worker.old.pass.seen }
        requires stands { StandsFor N.capacity worker.old.pass.seen worker.old.replica }
        ensures pass { worker.new.pass ≡ worker.old.pass }
        ensures foreseen { IfOk result (λ plan. IfSome plan (IsForeseen wish.now.design.now wish.now.rule.now.formula
            wish.now.net wish.now.kind worker.new.pass.seen)) }
    {
        let Some(window) = wish.window() else {
            return Ok(None);
        };
        let number = worker.pass.number();
        visit.leave();
        self.gate
            .pass(self.rt, number, Stop::Search { net: wish.net });
        let front = worker.pass.known();
        let Some(tree) = worker.plan_without(self.book.capacity(), wish, planner)? else {
            return Ok(None);
        };
        Ok(Some(Foreseen {
            tree,
            front,
            window,
        }))
    }

    /// The same plan, where nothing that was added since may change it: in the plan's window the net costs
    /// the same, or more on edges that the plan leaves aside. None elsewhere.
    fn kept(
        &self,
        wish: &Wish<'_>,
        plan: Foreseen,
        visit: &mut Visit<'_, N>,
        worker: &mut Worker<N>,
    ) -> Result<Option<Foreseen>, AllocError>
        requires design { HasCapacity wish.now.design.now N.capacity }
        requires foreseen { IsForeseen wish.now.design.now wish.now.rule.now.formula
            wish.now.net wish.now.kind worker.old.pass.seen plan }
        ensures learnt { (t : Setting) → IsOver wish.now.design.now wish.now.rule.now.formula t →
            OnOk result (HasFollowed t worker.old.pass worker.new.pass) }
        ensures held { OnOk result (worker.new.pass.held ≡ length worker.new.pass.seen) }
        ensures stands { OnOk result (StandsFor N.capacity worker.new.pass.seen worker.new.replica) }
        ensures foreseen { IfOk result (λ plan. IfSome plan (IsForeseen wish.now.design.now wish.now.rule.now.formula
            wish.now.net wish.now.kind worker.new.pass.seen)) }
    {
        let sought = Sought {
            net: wish.net,
            formula: wish.rule.formula(),
            window: plan.window,
            tree: &plan.tree,
        };
        let still = worker.sync_beside(self.rt, visit, plan.front, &sought)?;
        if still {
            let front = worker.pass.known();
            return Ok(Some(Foreseen { front, ..plan }));
        }
        Ok(None)
    }

    /// The net's plan over what the book holds now that the net is released, all of which the worker
    /// comes to know: the one that was foreseen, where nothing but the release was added since that may
    /// change it.
    pub(crate) fn search_freed(
        &self,
        wish: &Wish<'_>,
        foreseen: Option<Foreseen>,
        visit: &mut Visit<'_, N>,
        worker: &mut Worker<N>,
        planner: &mut Planner,
    ) -> Result<RouteTree, AllocError>
        requires design { HasCapacity wish.now.design.now N.capacity }
        requires foreseen { IfSome foreseen (IsForeseen wish.now.design.now wish.now.rule.now.formula wish.now.net
            wish.now.kind worker.old.pass.seen) }
        ensures learnt { (t : Setting) → IsOver wish.now.design.now wish.now.rule.now.formula t →
            OnOk result (HasFollowed t worker.old.pass worker.new.pass) }
        ensures plan { IfOk result (IsPlanFor wish.now.design.now wish.now.rule.now.formula
            worker.new.pass.seen wish.now.net wish.now.kind) }
    {
        let Some(foreseen) = foreseen else {
            return self.search(wish, visit, worker, planner);
        };
        let sought = Sought {
            net: wish.net,
            formula: wish.rule.formula(),
            window: foreseen.window,
            tree: &foreseen.tree,
        };
        let still = worker.sync_freed(self.rt, visit, foreseen.front, &sought)?;
        if still {
            return Ok(foreseen.tree);
        }
        self.plan(wish, visit, worker, planner)
    }
}
