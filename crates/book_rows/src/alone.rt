//! A book for one thread, and pasts and replicas of it.
ghost use Rattle.std.specs.Prelude.{◌≡◌, ◌<◌, ◌≤◌, length, IsTrue, IfOk};
ghost use Rattle.book_state.specs.Books.{nets_of};
ghost use Rattle.gr_base.specs.Grid.{has_edge};
ghost use Rattle.grid_demand.specs.Tables.{capacity_of};
ghost use Rattle.book_rows.specs.Rows.{AreOfRow, first_edge};

use crate::single::{mark_to, reply_to};
use crate::steps::{Step, Which};
use crate::turns::EDGE;
use book_state::{BookState, Past, Replica};
use gr_base::{Design, RouteTree};
use grid_demand::Capacity;
use std::alloc::{AllocError, Global};
use std::io;

/// More entries than a block of a history has.
const MANY: u64 = 1025;

/// What is done with a book.
#[derive(Clone, Copy)]
enum Act {
    /// Makes these calls, and prints the replies.
    Play(&'static [Step]),
    /// Adds marks until the history has this length.
    MarkTo(u64),
    Follow,
    Look,
    LookBack(u64),
}

/// The nets take turns on the edge.
const TURNS: [Act; 7] = [
    Act::Play(&[
        Step::Claim(Which::A, Some(0)),
        Step::Claim(Which::B, Some(0)),
        Step::Claim(Which::A, Some(0)),
        Step::Mark,
    ]),
    Act::Follow,
    Act::Play(&[
        Step::Release(Which::A),
        Step::Release(Which::A),
        Step::Claim(Which::B, Some(0)),
    ]),
    Act::Follow,
    Act::Look,
    Act::LookBack(4),
    Act::LookBack(7),
];

/// Both nets lie on the edge, beyond its capacity, and the book is marked again and again.
const MARKS: [Act; 5] = [
    Act::Play(&[Step::Claim(Which::A, None), Step::Claim(Which::B, None)]),
    Act::MarkTo(500),
    Act::Follow,
    Act::MarkTo(MANY),
    Act::Follow,
];

/// Prints what the book answers, and what is read of it.
pub(crate) fn show<R: Print>(
    rt: &R,
    alloc: Global,
    design: &Design,
    tree: &RouteTree,
) -> io::Result<()>
    requires { AreOfRow (capacity_of design.now) design.now tree.now }
{
    println!(rt; "a book for one thread")?;
    let capacity = Capacity::of(alloc, design)?;
    for acts in [TURNS.as_slice(), MARKS.as_slice()] {
        game(rt, alloc, design, &capacity, tree, acts)?;
    }
    Ok(())
}

/// What is done with a new book, in turn.
fn game<R: Print>(
    rt: &R,
    alloc: Global,
    design: &Design,
    capacity: &Capacity,
    tree: &RouteTree,
    acts: &[Act],
) -> io::Result<()>
    requires { AreOfRow capacity.now design.now tree.now }
{
    let mut book = BookState::new(alloc, design)?;
    for act in acts {
        perform(rt, alloc, &mut book, design, capacity, tree, *act)?;
    }
    Ok(())
}

fn perform<R: Print>(
    rt: &R,
    alloc: Global,
    book: &mut BookState,
    design: &Design,
    capacity: &Capacity,
    tree: &RouteTree,
    act: Act,
) -> io::Result<()>
    requires of_row { AreOfRow capacity.now design.now tree.now }
    requires book { book.old.capacity ≡ capacity.now }
    ensures { book.new.capacity ≡ book.old.capacity }
{
    match act {
        Act::Play(steps) => play(rt, alloc, book, tree, steps),
        Act::MarkTo(wanted) => Ok(mark_to(book, wanted)?),
        Act::Follow => follow(rt, alloc, book, design, capacity),
        Act::Look => look(rt, book),
        Act::LookBack(front) => look_back(rt, book, capacity, front),
    }
}

/// Prints the reply to each of these calls.
fn play<R: Print>(
    rt: &R,
    alloc: Global,
    book: &mut BookState,
    tree: &RouteTree,
    steps: &[Step],
) -> io::Result<()>
    requires nets { 2 ≤ nets_of book.old.capacity }
    requires shape { tree.now.shape ≡ book.old.capacity.shape }
    ensures { book.new.capacity ≡ book.old.capacity }
{
    for step in steps {
        let reply = reply_to(alloc, book, tree, *step)?;
        println!(rt; "{}: {reply:?}", step.told())?;
    }
    Ok(())
}

/// What a new past and a new replica have once they have read the whole history.
fn follow<R: Print>(
    rt: &R,
    alloc: Global,
    book: &BookState,
    design: &Design,
    capacity: &Capacity,
) -> io::Result<()>
    requires design { capacity_of design.now ≡ capacity.now }
    requires capacity { book.now.capacity ≡ capacity.now }
    requires edge { IsTrue (has_edge capacity.now.shape first_edge) }
{
    let (entries, demand, marks) = followed(alloc, book, design, capacity)?;
    println!(rt; "a past of {entries} entries, demand {demand}, marks {marks}")
}

/// The entries of the past, and the demand and the marks of the replica.
fn followed(
    alloc: Global,
    book: &BookState,
    design: &Design,
    capacity: &Capacity,
) -> Result<(u64, u64, u32), AllocError>
    requires design { capacity_of design.now ≡ capacity.now }
    requires capacity { book.now.capacity ≡ capacity.now }
    requires edge { IsTrue (has_edge capacity.now.shape first_edge) }
{
    let mut past = Past::new(alloc);
    let mut replica = Replica::new(alloc, design)?;
    book.history().extend(&mut past)?;
    replica.catch_up(capacity, &past);
    let loads = replica.loads();
    Ok((past.len(), loads.demand(EDGE), loads.marks(EDGE)))
}

/// The length of the history, the number of victims, and the least mark.
fn look<R: Print>(rt: &R, book: &BookState) -> io::Result<()> {
    let victims = book.victims()?.as_slice().len();
    println!(rt;
        "{} entries, {victims} victims, least mark {:?}",
        book.history().len(),
        book.least_mark()
    )
}

/// Which nets had a tree at a front, and the demand there.
fn look_back<R: Print>(rt: &R, book: &BookState, capacity: &Capacity, front: u64) -> io::Result<()>
    requires capacity { capacity.now ≡ book.now.capacity }
    requires edge { IsTrue (has_edge capacity.now.shape first_edge) }
{
    if book.history().len() < front {
        return Ok(());
    }
    let (a, b) = trees_at(book, front)?;
    let demand = book.loads_at(capacity, front)?.demand(EDGE);
    println!(rt; "at {front}: tree of a {a}, of b {b}, demand {demand}")
}

/// Whether each net had a tree at a front.
fn trees_at(book: &BookState, front: u64) -> Result<(bool, bool), AllocError>
    requires { front ≤ length book.now.history }
{
    let routes = book.routes_at(front)?;
    Ok((routes.get(0).is_some(), routes.get(1).is_some()))
}
