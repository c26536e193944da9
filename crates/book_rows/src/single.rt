//! Calls of a book for one thread. Of a book they promise only that it stays one of the same design,
//! so that the games that make many calls know little of each.
ghost use Rattle.std.specs.Prelude.{◌≡◌, ◌<◌, ◌≤◌};
ghost use Rattle.book_state.specs.Books.{nets_of};

use crate::steps::Step;
use book_state::{BookState, Claim, PlanKind, Reply};
use gr_base::RouteTree;
use std::alloc::{AllocError, Global};

/// The reply to a call of caller 1. A claim is planned from the whole history.
pub(crate) fn reply_to(
    alloc: Global,
    book: &mut BookState,
    tree: &RouteTree,
    step: Step,
) -> Result<Reply, AllocError>
    requires nets { 2 ≤ nets_of book.old.capacity }
    requires shape { tree.now.shape ≡ book.old.capacity.shape }
    ensures { book.new.capacity ≡ book.old.capacity }
{
    match step {
        Step::Claim(net, slack) => claim(alloc, book, tree, net.number(), slack),
        Step::Release(net) => book.release(1, net.number()),
        Step::Mark => book.mark(1),
    }
}

/// The reply to a claim of a net with a copy of the tree.
fn claim(
    alloc: Global,
    book: &mut BookState,
    tree: &RouteTree,
    net: u32,
    slack: Option<u32>,
) -> Result<Reply, AllocError>
    requires net { net < nets_of book.old.capacity }
    requires shape { tree.now.shape ≡ book.old.capacity.shape }
    ensures { book.new.capacity ≡ book.old.capacity }
{
    let claim = Claim {
        net,
        tree: tree.copy(alloc)?,
        slack,
        front: book.history().len(),
        kind: PlanKind::Pattern,
    };
    let Ok(reply) = book.claim(1, claim) else {
        return Err(AllocError);
    };
    Ok(reply)
}

/// Adds marks to the history until it has this length.
pub(crate) fn mark_to(book: &mut BookState, wanted: u64) -> Result<(), AllocError>
    ensures { book.new.capacity ≡ book.old.capacity }
{
    for _ in book.history().len()..wanted {
        mark(book)?;
    }
    Ok(())
}

fn mark(book: &mut BookState) -> Result<(), AllocError>
    ensures { book.new.capacity ≡ book.old.capacity }
{
    book.mark(1)?;
    Ok(())
}
