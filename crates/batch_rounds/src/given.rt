//! The claims of given trees, before the rounds.
ghost use Rattle.std.specs.Prelude.{◌≡◌, ◌+◌, [], Some, OnOk};
ghost use Rattle.gr_base.specs.Trees.{tree_at};
ghost use Rattle.grid_demand.specs.Tables.{capacity_of};
ghost use Rattle.run_histories.specs.GivenRoutes.{given_among};
ghost use Rattle.batch_rounds.specs.BatchedHistories.{claims_given};
ghost use Rattle.batch_rounds.specs.Rounds.{batching_of};

use crate::asked::Asked;
use crate::claims::add_claim;
use book_state::{BookState, Claim, PlanKind};
use gr_base::RouteTree;
use std::alloc::{AllocError, Global};

/// Claims each net to which a tree is given for that, in the design's order. The only error is want of
/// memory.
pub(crate) fn claim_given(
    alloc: Global,
    asked: &Asked,
    book: &mut BookState,
) -> Result<(), AllocError>
    requires capacity { book.old.capacity ≡ capacity_of asked.now.design.now }
    requires nothing { book.old.history ≡ [] }
    ensures capacity { OnOk result (book.new.capacity ≡ capacity_of asked.now.design.now) }
    ensures claims { OnOk result (book.new.history ≡ claims_given (batching_of asked.now)) }
{
    for net in 0..asked.design.nets() {
        let Some(tree) = asked.given.get(net) else {
            continue;
        };
        claim_tree(alloc, asked, net, tree, book)?;
    }
    Ok(())
}

/// Claims a net for the tree that is given to it, at any demand.
fn claim_tree(
    alloc: Global,
    asked: &Asked,
    net: u32,
    tree: &RouteTree,
    book: &mut BookState,
) -> Result<(), AllocError>
    requires capacity { book.old.capacity ≡ capacity_of asked.now.design.now }
    requires given { tree_at asked.now.given.now net ≡ Some tree.now }
    requires before { book.old.history ≡ given_among asked.now.design.now asked.now.given.now net }
    ensures capacity { OnOk result (book.new.capacity ≡ capacity_of asked.now.design.now) }
    ensures after { OnOk result
        (book.new.history ≡ given_among asked.now.design.now asked.now.given.now (net + 1)) }
{
    let tree = tree.copy(alloc)?;
    let front = book.history().len();
    let claim = Claim {
        net,
        tree,
        slack: None,
        front,
        kind: PlanKind::Given,
    };
    add_claim(book, claim)?;
    Ok(())
}
