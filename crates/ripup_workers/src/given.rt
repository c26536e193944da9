//! The claims of given trees, before the rounds.
ghost use Rattle.std.specs.Prelude.{◌≡◌, ◌+◌, ◌<◌, Some, map, length, OnOk};
ghost use Rattle.gr_base.specs.Trees.{tree_at};
ghost use Rattle.grid_demand.specs.Tables.{capacity_of};
ghost use Rattle.run_histories.specs.GivenRoutes.{open_nets};
ghost use Rattle.run_histories.specs.Rounds.{first_worker};
ghost use Rattle.track_book.specs.Passes.{IsNew};
ghost use Rattle.ripup_workers.specs.Closing.{AreNew};
ghost use Rattle.ripup_workers.specs.Giving.{HasGiven};
ghost use Rattle.ripup_workers.specs.Rounding.{setting_of, AreBefore};

use crate::asked::Asked;
use crate::team::Coordinator;
use crate::worker::Worker;
use book_state::PlanKind;
use gr_base::RouteTree;
use std::alloc::{AllocError, Global};
use std::sync::Wait;
use track_book::{BookName, TrackBook, Visit};

/// The first worker claims each net to which a tree is given, and then all callers come to know that. The
/// only error is want of memory.
pub(crate) fn begin_given<N: BookName, R: Wait>(
    rt: &R,
    alloc: Global,
    book: &TrackBook<N>,
    asked: &Asked,
    coordinator: &mut Coordinator<N>,
    workers: &mut Vec<Worker<N>>,
) -> Result<(), AllocError>
    requires capacity { N.capacity ≡ capacity_of asked.now.design.now }
    requires new { AreNew (setting_of asked.now) coordinator.old.pass (map (λ w. w.pass) workers.old.items) }
    ensures { OnOk result (AreBefore (setting_of asked.now) 0 (open_nets asked.now.design.now asked.now.given.now) None
        coordinator.new.pass (map (λ w. w.pass) workers.new.items)) }
{
    claim_given(rt, alloc, book, asked, &mut workers[0])?;
    coordinator.meet_behind_first(rt, book, workers);
    Ok(())
}

/// The worker claims each net to which a tree is given for that, in the design's order.
fn claim_given<N: BookName, R: Wait>(
    rt: &R,
    alloc: Global,
    book: &TrackBook<N>,
    asked: &Asked,
    worker: &mut Worker<N>,
) -> Result<(), AllocError>
    requires capacity { N.capacity ≡ capacity_of asked.now.design.now }
    requires new { IsNew first_worker worker.old.pass }
    ensures { OnOk result
        (HasGiven (setting_of asked.now) (length asked.now.design.now.nets) worker.new.pass) }
{
    let mut visit = Visit::new(book);
    for net in 0..asked.design.nets() {
        let Some(tree) = asked.given.get(net) else {
            continue;
        };
        claim_tree(rt, alloc, asked, net, tree, &mut visit, worker)?;
    }
    Ok(())
}

/// The worker claims a net for the tree that is given to it, at any demand.
fn claim_tree<N: BookName, R: Wait>(
    rt: &R,
    alloc: Global,
    asked: &Asked,
    net: u32,
    tree: &RouteTree,
    visit: &mut Visit<'_, N>,
    worker: &mut Worker<N>,
) -> Result<(), AllocError>
    requires capacity { N.capacity ≡ capacity_of asked.now.design.now }
    requires given { tree_at asked.now.given.now net ≡ Some tree.now }
    requires before { HasGiven (setting_of asked.now) net worker.old.pass }
    ensures { OnOk result (HasGiven (setting_of asked.now) (net + 1) worker.new.pass) }
{
    let tree = tree.copy(alloc)?;
    worker.claim(rt, visit, net, tree, None, PlanKind::Given)?;
    Ok(())
}
