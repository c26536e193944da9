//! Plans of nets, one after the other.
ghost use Rattle.std.specs.Prelude.{◌≡◌, ◌+◌, ◌*◌, ◌≤◌, Some, Err, length, IfOk, IfSome, option_map};
ghost use Rattle.elmore_delay.specs.Loadings.{IsLoading};
ghost use Rattle.ginneken_lists.specs.Pairs.{candidate_of};
ghost use Rattle.buffer_plan.specs.Best.{time_with};
ghost use Rattle.buffer_plan.specs.Gathered.{IsLoadingOf};
ghost use Rattle.polar_lists.specs.Polarity.{IsBestLegal, HasNoLegal};
ghost use Rattle.polar_lists.specs.Signals.{legal_candidate, picked_legal};
ghost use Rattle.polar_lists.specs.declared.error.PolarError.TheVariants.{NoLegal};

use crate::error::PolarError;
use crate::hanging::hang_all;
use crate::lists::{self, Lists};
use crate::offers::Offers;
use crate::side;
use crate::sides::Sides;
use buffer_plan::plan_of;
use elmore_delay::{Loading, Plan};
use ginneken_lists::{ListPool, Pair, Steps, Trail};
use gr_base::RouteTree;
use rc_library::Library;
use std::alloc::{AllocError, Global};
use std::sync::ledger::Ledger;

/// Makes the plans of nets, and keeps the memory of one for the next.
#[derive(Debug, Drop)]
pub struct PolarPlanner {
    trail: Trail,
    lists: Lists,
    offers: Offers,
    pool: ListPool,
    marks: Vec<u64>,
}

impl PolarPlanner {
    /// A planner, which takes no memory yet.
    pub fn new(alloc: Global) -> PolarPlanner {
        PolarPlanner {
            trail: Trail::new(alloc),
            lists: Vec::new(alloc),
            offers: Offers::new(alloc),
            pool: ListPool::new(alloc),
            marks: Vec::new(alloc),
        }
    }

    /// The picked legal plan of a net's tree: a placement of buffers with which each sink gets the
    /// signal that it wants and the required time at the driver is the greatest that any such gives,
    /// and that time in half femtoseconds. `NoLegal` exactly where no placement is legal.
    ///
    /// After van Ginneken, "Buffer placement in distributed RC-tree networks for minimal Elmore
    /// delay", 1990, with lists for both signals as in Lillis, Cheng and Lin, "Optimal wire sizing and
    /// buffer insertion for low power and a generalized delay model", 1996.
    pub fn plan<L: Ledger>(
        &mut self,
        alloc: Global,
        tree: &RouteTree,
        library: &Library,
        loading: &Loading,
        steps: &mut Steps<L>,
    ) -> Result<Plan, PolarError>
        requires tree { loading.now.tree ≡ tree.now }
        requires library { loading.now.library ≡ library.now }
        ensures picked { IfOk result (λ plan. picked_legal loading.now ≡ Some plan.placement) }
        ensures best { IfOk result (λ plan. IsBestLegal loading.now plan.placement) }
        ensures required { IfOk result (λ plan. plan.required ≡ time_with loading.now plan.placement) }
        ensures no_legal { result ≡ Err NoLegal → HasNoLegal loading.now }
        ensures steps { steps.new ≤ steps.old
            + 2 * (8 * (1 + length library.now.kinds) * length tree.now.nodes
            * (1 + length library.now.kinds * length tree.now.nodes)) }
    {
        match self.legal_plan(alloc, tree, library, loading, steps)? {
            None => Err(PolarError::NoLegal),
            Some(plan) => Ok(plan),
        }
    }

    /// The picked legal plan, or none where no placement is legal.
    pub(crate) fn legal_plan<L: Ledger>(
        &mut self,
        alloc: Global,
        tree: &RouteTree,
        library: &Library,
        loading: &Loading,
        steps: &mut Steps<L>,
    ) -> Result<Option<Plan>, AllocError>
        requires ours { IsLoadingOf loading.now tree.now library.now }
        ensures picked { IfOk result (λ plan. picked_legal loading.now ≡ option_map (λ p. p.placement) plan) }
        ensures required { IfOk result (λ plan. IfSome plan (λ p. p.required ≡ time_with loading.now p.placement)) }
        ensures loading { IfOk result (λ _. IsLoading loading.now) }
        ensures steps { steps.new ≤ steps.old
            + 2 * (8 * (1 + length library.now.kinds) * length tree.now.nodes
            * (1 + length library.now.kinds * length tree.now.nodes)) }
    {
        let Some(pair) = self.best_pair(alloc, tree, library, loading, steps)? else {
            return Ok(None);
        };
        let plan = plan_of(alloc, tree, loading, &self.trail, pair, &mut self.marks)?;
        Ok(Some(plan))
    }

    /// The pair of the plain signal at node 0 that the driver drives best, if there is one.
    fn best_pair<L: Ledger>(
        &mut self,
        alloc: Global,
        tree: &RouteTree,
        library: &Library,
        loading: &Loading,
        steps: &mut Steps<L>,
    ) -> Result<Option<Pair>, AllocError>
        requires ours { IsLoadingOf loading.now tree.now library.now }
        ensures picked { IfOk result (λ pair. legal_candidate loading.now
            ≡ option_map (candidate_of self.new.trail) pair) }
        ensures mark { IfOk result (λ pair. IfSome pair (λ p. p.mark ≤ length self.new.trail)) }
        ensures loading { IsLoading loading.now }
        ensures steps { steps.new ≤ steps.old
            + 2 * (8 * (1 + length library.now.kinds) * length tree.now.nodes
            * (1 + length library.now.kinds * length tree.now.nodes)) }
    {
        let driver = loading.driver();
        self.trail.clear();
        lists::start(alloc, tree, loading, &mut self.lists, &mut self.pool)?;
        hang_all(
            alloc,
            tree,
            library,
            loading,
            &mut self.lists,
            &mut self.offers,
            &mut self.trail,
            &mut self.pool,
            steps,
        )?;
        let whole = lists::take(&mut self.lists, 0);
        let Sides { plain, inverse } = lists::whole(alloc, whole, &mut self.pool)?;
        side::give_up(inverse, &mut self.pool);
        Ok(side::best_driven(plain, driver, &mut self.pool, steps))
    }
}
