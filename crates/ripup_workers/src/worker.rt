//! The workers of the rounds.
ghost use Rattle.std.specs.Prelude.{◌≡◌, ◌<◌, [], ◌∷◌, ◌++◌, length, take, IfOk, IfSome, OnOk, IsTrue};
ghost use Rattle.book_state.specs.Books.{nets_of};
ghost use Rattle.book_state.specs.Lifted.{IsFreeing};
ghost use Rattle.book_state.specs.declared.entry.Entry.{Entry};
ghost use Rattle.ripup_workers.specs.Turning.{HasCapacity, IsPlanWithout};
ghost use Rattle.book_state.specs.Replicas.{StandsFor};
ghost use Rattle.book_state.specs.Still.{StaysBest};
ghost use Rattle.run_histories.specs.Rounds.{claim_of};
ghost use Rattle.track_book.specs.Passes.{IsPass, IsAnswered, HasLearnt};

use crate::wish::Wish;
use book_state::{Call, Claim, PlanKind, Replica, Reply, Sought};
use gr_base::RouteTree;
use grid_demand::Capacity;
use net_plan::Planner;
use std::alloc::AllocError;
use std::sync::Wait;
use track_book::{BookName, Pass, Visit};

/// One worker: its pass, and a replica that stands for a first part of what the pass has seen.
#[derive(Drop)]
pub(crate) struct Worker<N: BookName> {
    pub(crate) pass: Pass<N>,
    pub(crate) replica: Replica,
    ghost stands: { StandsFor N.capacity (take replica.front pass.seen) replica },
}

impl<N: BookName> Worker<N> {
    /// The worker comes to know the whole history as it stood at its last call, or later.
    pub(crate) fn sync<R: Wait>(
        &mut self,
        rt: &R,
        visit: &mut Visit<'_, N>,
    ) -> Result<(), AllocError>
        ensures before { IsPass N.capacity self.old.pass }
        ensures learnt { OnOk result (HasLearnt N.capacity self.old.pass self.new.pass) }
        ensures pass { OnOk result (IsPass N.capacity self.new.pass) }
        ensures held { OnOk result (self.new.pass.held ≡ length self.new.pass.seen) }
        ensures stands { OnOk result (StandsFor N.capacity self.new.pass.seen self.new.replica) }
    {
        self.pass.let_go();
        self.hold(rt, visit)?;
        self.replica.catch_up(visit.capacity(), self.pass.past());
        Ok(())
    }

    /// The worker comes to know the whole history. The result is true only where the replica stood for the
    /// first `front` entries, and those that it read since leave the net's booking, and what each wire edge
    /// that begins in the window costs the net, or make it dearer where it doesn't join two cells of the
    /// tree.
    pub(crate) fn sync_beside<R: Wait>(
        &mut self,
        rt: &R,
        visit: &mut Visit<'_, N>,
        front: u64,
        sought: &Sought<'_>,
    ) -> Result<bool, AllocError>
        ensures before { IsPass N.capacity self.old.pass }
        ensures learnt { OnOk result (HasLearnt N.capacity self.old.pass self.new.pass) }
        ensures pass { OnOk result (IsPass N.capacity self.new.pass) }
        ensures held { OnOk result (self.new.pass.held ≡ length self.new.pass.seen) }
        ensures stands { OnOk result (StandsFor N.capacity self.new.pass.seen self.new.replica) }
        ensures still { IfOk result (λ still. IsTrue still → StaysBest N.capacity sought.now.formula sought.now.net sought.now.window
            sought.now.tree.now (take front self.new.pass.seen) self.new.pass.seen) }
    {
        self.hold_more(rt, visit)?;
        let past = self.pass.past();
        let read = self.replica.front();
        let still = self
            .replica
            .catch_up_beside(visit.capacity(), past, sought)?;
        Ok(still && read == front)
    }

    /// The worker comes to know the whole history as it stood at its last call, or later. The result is
    /// true only where the replica stood for the first `front` entries, the last entry frees the net, and
    /// of the others that it read holds what `sync_beside` says.
    pub(crate) fn sync_freed<R: Wait>(
        &mut self,
        rt: &R,
        visit: &mut Visit<'_, N>,
        front: u64,
        sought: &Sought<'_>,
    ) -> Result<bool, AllocError>
        requires { sought.now.net < nets_of N.capacity }
        ensures before { IsPass N.capacity self.old.pass }
        ensures learnt { OnOk result (HasLearnt N.capacity self.old.pass self.new.pass) }
        ensures pass { OnOk result (IsPass N.capacity self.new.pass) }
        ensures stands { OnOk result (StandsFor N.capacity self.new.pass.seen self.new.replica) }
        ensures still { IfOk result (λ still. IsTrue still → (e : Entry) → IsFreeing sought.now.net e →
            StaysBest N.capacity sought.now.formula sought.now.net sought.now.window sought.now.tree.now
            (take front self.new.pass.seen ++ e ∷ []) self.new.pass.seen) }
    {
        self.hold(rt, visit)?;
        let past = self.pass.past();
        let read = self.replica.front();
        let still = self.replica.catch_up_freed(visit.capacity(), past, sought)?;
        Ok(still && read == front)
    }

    /// The net's plan over all that the worker knows, as if the net was released. None where it isn't
    /// booked.
    pub(crate) fn plan_without(
        &mut self,
        capacity: &Capacity,
        wish: &Wish<'_>,
        planner: &mut Planner,
    ) -> Result<Option<RouteTree>, AllocError>
        requires design { HasCapacity wish.now.design.now N.capacity }
        requires capacity { capacity.now ≡ N.capacity }
        requires net { wish.now.net < nets_of N.capacity }
        requires held { self.old.pass.held ≡ length self.old.pass.seen }
        requires stands { StandsFor N.capacity self.old.pass.seen self.old.replica }
        ensures pass { self.new.pass ≡ self.old.pass }
        ensures plan { IfOk result (λ plan. IfSome plan (IsPlanWithout wish.now.design.now wish.now.rule.now.formula
            self.old.pass.seen wish.now.net wish.now.kind)) }
    {
        let past = self.pass.past();
        if !self.replica.lift(capacity, past, wish.net) {
            return Ok(None);
        }
        let plan = wish.plan(planner, capacity, self.replica.loads());
        self.replica.put_back(capacity, past, wish.net);
        Ok(Some(plan?))
    }

    /// The pass holds all that it has seen. Each of its calls has left it so, unless memory was wanting;
    /// else it sees the whole history.
    fn hold<R: Wait>(&mut self, rt: &R, visit: &mut Visit<'_, N>) -> Result<(), AllocError>
        ensures before { IsPass N.capacity self.old.pass }
        ensures learnt { OnOk result (HasLearnt N.capacity self.old.pass self.new.pass) }
        ensures held { OnOk result (self.new.pass.held ≡ length self.new.pass.seen) }
        ensures replica { OnOk result (self.new.replica ≡ self.old.replica) }
    {
        let _known = self.pass.known();
        if self.pass.holds_all() {
            return Ok(());
        }
        self.hold_more(rt, visit)
    }

    /// The pass sees the whole history, and holds it. Where there is nothing new, that takes no lock.
    fn hold_more<R: Wait>(&mut self, rt: &R, visit: &mut Visit<'_, N>) -> Result<(), AllocError>
        ensures before { IsPass N.capacity self.old.pass }
        ensures learnt { OnOk result (HasLearnt N.capacity self.old.pass self.new.pass) }
        ensures held { OnOk result (self.new.pass.held ≡ length self.new.pass.seen) }
        ensures replica { OnOk result (self.new.replica ≡ self.old.replica) }
    {
        let known = self.pass.known();
        if self.holds_whole(visit) {
            return Ok(());
        }
        visit.hold(rt, &mut self.pass)?;
        let longer = known <= self.pass.known();
        prove!(longer);
        Ok(())
    }

    /// Whether the pass holds all entries that the book counts, and so all that there are while the visit
    /// is inside. That takes no lock.
    pub(crate) fn holds_whole(&mut self, visit: &Visit<'_, N>) -> bool
        ensures pass { self.new.pass ≡ self.old.pass }
        ensures replica { self.new.replica ≡ self.old.replica }
        ensures held { IsTrue result → self.new.pass.held ≡ length self.new.pass.seen }
    {
        if !self.pass.holds_all() {
            return false;
        }
        let known = self.pass.known();
        visit.front(&mut self.pass) == known
    }

    /// Frees a net.
    pub(crate) fn release<R: Wait>(
        &mut self,
        rt: &R,
        visit: &mut Visit<'_, N>,
        net: u32,
    ) -> Result<Reply, AllocError>
        requires { net < nets_of N.capacity }
        ensures before { IsPass N.capacity self.old.pass }
        ensures reply { IfOk result
            (λ reply. IsAnswered N.capacity self.old.pass self.new.pass (Call.Release net) reply) }
        ensures pass { OnOk result (IsPass N.capacity self.new.pass) }
    {
        let known = self.pass.known();
        let reply = visit.release(rt, &mut self.pass, net)?;
        let longer = known < self.pass.known();
        prove!(longer);
        Ok(reply)
    }

    /// Claims a net for a tree that was planned from all that the worker knows.
    pub(crate) fn claim<R: Wait>(
        &mut self,
        rt: &R,
        visit: &mut Visit<'_, N>,
        net: u32,
        tree: RouteTree,
        slack: Option<u32>,
        kind: PlanKind,
    ) -> Result<Reply, AllocError>
        requires net { net < nets_of N.capacity }
        requires shape { tree.shape ≡ N.capacity.shape }
        ensures before { IsPass N.capacity self.old.pass }
        ensures reply { let claim = claim_of net tree slack (length self.old.pass.seen) kind in
            IfOk result (λ reply. IsAnswered N.capacity self.old.pass self.new.pass (Call.Claim claim) reply) }
        ensures pass { OnOk result (IsPass N.capacity self.new.pass) }
    {
        let front = self.pass.known();
        let claim = Claim {
            net,
            tree,
            slack,
            front,
            kind,
        };
        let Ok(reply) = visit.claim(rt, &mut self.pass, claim) else {
            return Err(AllocError);
        };
        let longer = front < self.pass.known();
        prove!(longer);
        Ok(reply)
    }
}
