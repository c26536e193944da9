//! Claims and releases by one thread, for timing.
ghost use Rattle.std.specs.Prelude.{◌≡◌, ◌<◌, take, OnOk};
ghost use Rattle.book_state.specs.Books.{nets_of};
ghost use Rattle.book_state.specs.Replicas.{StandsFor};
ghost use Rattle.book_rows.specs.Rows.{AreOfRow};

use crate::calls::claim;
use crate::games::Claims;
use book_state::Replica;
use gr_base::{Design, RouteTree};
use std::alloc::{AllocError, Global};
use std::sync::Wait;
use track_book::{BookName, Pass, TrackBook};

/// Claims and releases a net so often.
pub(crate) fn make_claims<N: BookName, R: Wait>(
    rt: &R,
    alloc: Global,
    book: &TrackBook<N>,
    pass: &mut Pass<N>,
    design: &Design,
    tree: &RouteTree,
    net: u32,
    claims: Claims,
) -> Result<(), AllocError>
    requires of_row { AreOfRow N.capacity design.now tree.now }
    requires net { net < nets_of N.capacity }
{
    let mut replica = Replica::new(alloc, design)?;
    repeat(rt, alloc, book, pass, &mut replica, tree, net, claims)
}

/// The same, and the replica follows the book where its turn has come. It stands for a first part of
/// what the pass has seen.
fn repeat<N: BookName, R: Wait>(
    rt: &R,
    alloc: Global,
    book: &TrackBook<N>,
    pass: &mut Pass<N>,
    replica: &mut Replica,
    tree: &RouteTree,
    net: u32,
    claims: Claims,
) -> Result<(), AllocError>
    requires net { net < nets_of N.capacity }
    requires shape { tree.now.shape ≡ N.capacity.shape }
    requires stands { StandsFor N.capacity (take replica.old.front pass.old.seen) replica.old }
{
    let mut left = claims.every;
    for _ in 0..claims.count {
        claim(rt, alloc, book, pass, tree, net, Some(0))?;
        book.release(rt, pass, net)?;
        left = follow(rt, book, pass, replica, left, claims.every)?;
    }
    Ok(())
}

/// The replica follows the book if one turn is left. The answer is how many are left then, if it follows
/// at all.
fn follow<N: BookName, R: Wait>(
    rt: &R,
    book: &TrackBook<N>,
    pass: &mut Pass<N>,
    replica: &mut Replica,
    left: Option<u32>,
    every: Option<u32>,
) -> Result<Option<u32>, AllocError>
    requires { StandsFor N.capacity (take replica.old.front pass.old.seen) replica.old }
    ensures { OnOk result (StandsFor N.capacity (take replica.new.front pass.new.seen) replica.new) }
{
    let Some(left) = left else {
        return Ok(None);
    };
    if left != 1 {
        return Ok(Some(left.saturating_sub(1)));
    }
    book.sync(rt, pass, replica)?;
    Ok(every)
}
