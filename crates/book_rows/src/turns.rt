//! A few calls by one thread with two passes.
ghost use Rattle.std.specs.Prelude.{◌≡◌, ◌≤◌, IsTrue};
ghost use Rattle.book_state.specs.Books.{nets_of};
ghost use Rattle.gr_base.specs.Grid.{has_edge};
ghost use Rattle.grid_demand.specs.Tables.{capacity_of};
ghost use Rattle.book_rows.specs.Rows.{AreOfRow, first_edge};

use crate::calls::reply_to;
use crate::closing::closed;
use crate::steps::{Step, Which};
use book_state::Replica;
use gr_base::{Design, Edge, RouteTree, Way};
use std::alloc::{AllocError, Global};
use std::io;
use std::marker::Brand;
use std::sync::Wait;
use track_book::{Blank, BookName, ClosedBook, Pass, TrackBook};

/// The edge between the two tiles.
pub(crate) const EDGE: Edge = Edge {
    low: 0,
    way: Way::East,
};

/// Prints what the calls answer.
pub(crate) fn show<R: Wait + Print>(
    rt: &R,
    alloc: Global,
    design: &Design,
    tree: &RouteTree,
) -> io::Result<()>
    requires { AreOfRow (capacity_of design.now) design.now tree.now }
{
    println!(rt; "one thread")?;
    let blank = Blank::new(alloc, design, 2)?;
    play::<Brand, R>(rt, alloc, design, tree, blank)
}

fn play<N: BookName, R: Wait + Print>(
    rt: &R,
    alloc: Global,
    design: &Design,
    tree: &RouteTree,
    blank: Blank,
) -> io::Result<()>
    requires word { blank.word ≡ N.word }
    requires capacity { blank.capacity ≡ N.capacity }
    requires of_row { AreOfRow N.capacity design.now tree.now }
    requires passes { blank.passes ≡ N.passes }
    requires two { N.passes ≡ 2 }
{
    let (book, mut passes) = blank.begin::<N>(alloc)?;
    game(rt, alloc, &book, &mut passes, design, tree)?;
    tell(rt, &closed(book, passes, 2)?)
}

/// The calls of both passes.
fn game<N: BookName, R: Wait + Print>(
    rt: &R,
    alloc: Global,
    book: &TrackBook<N>,
    passes: &mut [Pass<N>],
    design: &Design,
    tree: &RouteTree,
) -> io::Result<()>
    requires { AreOfRow N.capacity design.now tree.now }
{
    let Some((one, others)) = passes.split_last_mut() else {
        return Ok(());
    };
    let Some(zero) = others.first_mut() else {
        return Ok(());
    };
    by_turns(rt, alloc, book, zero, one, design, tree)
}

/// Pass 0 claims a, pass 1 claims b, pass 0 follows the book, pass 1 releases b, pass 0 marks, and
/// both meet.
fn by_turns<N: BookName, R: Wait + Print>(
    rt: &R,
    alloc: Global,
    book: &TrackBook<N>,
    zero: &mut Pass<N>,
    one: &mut Pass<N>,
    design: &Design,
    tree: &RouteTree,
) -> io::Result<()>
    requires { AreOfRow N.capacity design.now tree.now }
{
    call(rt, alloc, book, zero, tree, Step::Claim(Which::A, Some(0)))?;
    call(rt, alloc, book, one, tree, Step::Claim(Which::B, Some(0)))?;
    sync(rt, alloc, book, zero, design)?;
    call(rt, alloc, book, one, tree, Step::Release(Which::B))?;
    know(rt, book, zero)?;
    call(rt, alloc, book, zero, tree, Step::Mark)?;
    know(rt, book, one)?;
    book.meet(rt, zero, one);
    println!(rt; "they meet")?;
    know(rt, book, zero)?;
    know(rt, book, one)
}

/// A call, and what its pass knows then.
fn call<N: BookName, R: Wait + Print>(
    rt: &R,
    alloc: Global,
    book: &TrackBook<N>,
    pass: &mut Pass<N>,
    tree: &RouteTree,
    step: Step,
) -> io::Result<()>
    requires nets { 2 ≤ nets_of N.capacity }
    requires shape { tree.now.shape ≡ N.capacity.shape }
{
    let reply = reply_to(rt, alloc, book, pass, tree, step)?;
    println!(rt; "pass {} {}: {reply:?}", pass.number(), step.told())
}

/// The pass follows the book with a new replica.
fn sync<N: BookName, R: Wait + Print>(
    rt: &R,
    alloc: Global,
    book: &TrackBook<N>,
    pass: &mut Pass<N>,
    design: &Design,
) -> io::Result<()>
    requires design { capacity_of design.now ≡ N.capacity }
    requires edge { IsTrue (has_edge N.capacity.shape first_edge) }
{
    let (front, demand) = synced(rt, alloc, book, pass, design)?;
    println!(rt; "a replica syncs: front {front}, demand {demand}")
}

/// The replica's front, and its demand on the edge.
fn synced<N: BookName, R: Wait>(
    rt: &R,
    alloc: Global,
    book: &TrackBook<N>,
    pass: &mut Pass<N>,
    design: &Design,
) -> Result<(u64, u64), AllocError>
    requires design { capacity_of design.now ≡ N.capacity }
    requires edge { IsTrue (has_edge N.capacity.shape first_edge) }
{
    let mut replica = Replica::new(alloc, design)?;
    book.sync(rt, pass, &mut replica)?;
    Ok((replica.front(), replica.loads().demand(EDGE)))
}

/// How much a pass knows, and how much there is to be known.
fn know<N: BookName, R: Print>(rt: &R, book: &TrackBook<N>, pass: &mut Pass<N>) -> io::Result<()> {
    println!(rt;
        "pass {} knows {}, front {}",
        pass.number(),
        pass.known(),
        book.front(pass)
    )
}

/// The closed book's entries.
fn tell<R: Print>(rt: &R, closed: &ClosedBook) -> io::Result<()> {
    let history = closed.state().history();
    println!(rt; "closed: {} entries", history.len())?;
    for at in 0..history.len() {
        let entry = history.entry(at);
        println!(rt; "entry {at}: number {}, {:?}", entry.number, entry.reply)?;
    }
    Ok(())
}
