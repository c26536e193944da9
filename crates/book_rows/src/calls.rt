//! Calls to the shared book.
ghost use Rattle.std.specs.Prelude.{◌≡◌, ◌<◌, ◌≤◌, OnOk};
ghost use mathlib.Core.List.{IsPrefix};
ghost use Rattle.book_state.specs.Books.{nets_of};

use crate::steps::Step;
use book_state::{Claim, PlanKind, Reply};
use gr_base::RouteTree;
use std::alloc::{AllocError, Global};
use std::sync::Wait;
use track_book::{BookName, Pass, TrackBook};

/// The reply to a call. A claim is planned from no entry.
pub(crate) fn reply_to<N: BookName, R: Wait>(
    rt: &R,
    alloc: Global,
    book: &TrackBook<N>,
    pass: &mut Pass<N>,
    tree: &RouteTree,
    step: Step,
) -> Result<Reply, AllocError>
    requires nets { 2 ≤ nets_of N.capacity }
    requires shape { tree.now.shape ≡ N.capacity.shape }
{
    match step {
        Step::Claim(net, slack) => claim(rt, alloc, book, pass, tree, net.number(), slack),
        Step::Release(net) => book.release(rt, pass, net.number()),
        Step::Mark => book.mark(rt, pass),
    }
}

/// The reply to a claim of a net with a copy of the tree. The pass has seen what it had, and more.
pub(crate) fn claim<N: BookName, R: Wait>(
    rt: &R,
    alloc: Global,
    book: &TrackBook<N>,
    pass: &mut Pass<N>,
    tree: &RouteTree,
    net: u32,
    slack: Option<u32>,
) -> Result<Reply, AllocError>
    requires net { net < nets_of N.capacity }
    requires shape { tree.now.shape ≡ N.capacity.shape }
    ensures { OnOk result (IsPrefix pass.old.seen pass.new.seen) }
{
    let claim = Claim {
        net,
        tree: tree.copy(alloc)?,
        slack,
        front: 0,
        kind: PlanKind::Pattern,
    };
    let Ok(reply) = book.claim(rt, pass, claim) else {
        return Err(AllocError);
    };
    Ok(reply)
}
