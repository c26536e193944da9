//! Plans of nets, one after the other.
ghost use Rattle.std.specs.Prelude.{◌≡◌, ◌+◌, ◌*◌, ◌≤◌, Some, length, IfOk};
ghost use Rattle.elmore_delay.specs.Loadings.{IsLoading};
ghost use Rattle.ginneken_lists.specs.Pairs.{candidate_of};
ghost use Rattle.buffer_plan.specs.Best.{IsBest, time_with};
ghost use Rattle.buffer_plan.specs.Gathered.{IsLoadingOf};
ghost use Rattle.buffer_plan.specs.Picked.{picked_candidate, picked};

use crate::hanging::hang_all;
use crate::lists::{self, Lists};
use crate::placing::plan_of;
use elmore_delay::{Loading, Plan};
use ginneken_lists::{ListPool, Pair, Steps, Trail};
use gr_base::RouteTree;
use rc_library::Library;
use std::alloc::{AllocError, Global};
use std::sync::ledger::Ledger;

/// Makes the plans of nets, and keeps the memory of one for the next.
#[derive(Debug, Drop)]
pub struct Planner {
    trail: Trail,
    lists: Lists,
    pool: ListPool,
    marks: Vec<u64>,
}

impl Planner {
    /// A planner, which takes no memory yet.
    pub fn new(alloc: Global) -> Planner {
        Planner {
            trail: Trail::new(alloc),
            lists: Vec::new(alloc),
            pool: ListPool::new(alloc),
            marks: Vec::new(alloc),
        }
    }

    /// The picked plan of a net's tree: a placement of buffers with which the required time at the
    /// driver is the greatest, and that time in half femtoseconds. The only error is want of memory.
    ///
    /// After van Ginneken, "Buffer placement in distributed RC-tree networks for minimal Elmore
    /// delay", 1990.
    pub fn plan<L: Ledger>(
        &mut self,
        alloc: Global,
        tree: &RouteTree,
        library: &Library,
        loading: &Loading,
        steps: &mut Steps<L>,
    ) -> Result<Plan, AllocError>
        requires tree { loading.now.tree ≡ tree.now }
        requires library { loading.now.library ≡ library.now }
        ensures picked { IfOk result (λ plan. plan.placement ≡ picked loading.now) }
        ensures best { IfOk result (λ plan. IsBest loading.now plan.placement) }
        ensures required { IfOk result (λ plan. plan.required ≡ time_with loading.now plan.placement) }
        ensures loading { IsLoading loading.now }
        ensures steps { steps.new ≤ steps.old
            + 8 * (1 + length library.now.kinds) * length tree.now.nodes
            * (1 + length library.now.kinds * length tree.now.nodes) }
    {
        let pair = self.best_pair(alloc, tree, library, loading, steps)?;
        plan_of(alloc, tree, loading, &self.trail, pair, &mut self.marks)
    }

    /// The pair at node 0 that the driver drives best.
    fn best_pair<L: Ledger>(
        &mut self,
        alloc: Global,
        tree: &RouteTree,
        library: &Library,
        loading: &Loading,
        steps: &mut Steps<L>,
    ) -> Result<Pair, AllocError>
        requires ours { IsLoadingOf loading.now tree.now library.now }
        ensures picked { IfOk result (λ pair. picked_candidate loading.now ≡ Some (candidate_of self.new.trail pair)) }
        ensures mark { IfOk result (λ pair. pair.mark ≤ length self.new.trail) }
        ensures loading { IsLoading loading.now }
        ensures steps { steps.new ≤ steps.old
            + 8 * (1 + length library.now.kinds) * length tree.now.nodes
            * (1 + length library.now.kinds * length tree.now.nodes) }
    {
        let driver = loading.driver();
        self.trail.clear();
        lists::start(alloc, tree, loading, &mut self.lists, &mut self.pool)?;
        hang_all(
            alloc,
            tree,
            library,
            loading,
            &mut self.lists,
            &mut self.trail,
            &mut self.pool,
            steps,
        )?;
        let pairs = lists::whole(alloc, lists::take(&mut self.lists, 0), &mut self.pool)?;
        let best = pairs.best_driven(driver, steps);
        pairs.give_up(&mut self.pool);
        Ok(best)
    }
}
