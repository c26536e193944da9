//! What the program is asked for.
ghost use Rattle.std.specs.Prelude.{◌≡◌};
ghost use Rattle.grid_demand.specs.Tables.{capacity_of};
ghost use Rattle.book_rows.specs.Rows.{AreOfRow, IsPlayed};

use crate::designs::{along, design};
use crate::games::{Claims, Game, Task};
use crate::rows::{NARROW, Row, WIDE};
use crate::{alone, crowd, turns};
use gr_base::{Design, RouteTree};
use std::alloc::{AllocError, Global};
use std::io;
use std::sync::Wait;
use std::thread::Threads;

/// What the program is asked for.
#[derive(Clone, Copy)]
pub(crate) enum Order {
    /// To play the rows.
    Rows,
    /// To copy a tree so often.
    Copies(u32),
    /// To make claims by threads.
    Claims(Claims),
}

impl Order {
    /// The tiles and nets that it is about.
    fn row(self) -> Row {
        match self {
            Order::Rows => NARROW,
            Order::Copies(_) | Order::Claims(_) => WIDE,
        }
    }
}

/// Does what is asked for.
pub(crate) fn carry_out<R: Threads + Wait + Print + Sync>(
    rt: &R,
    alloc: Global,
    order: Order,
) -> io::Result<()> {
    let design = design(alloc, order.row())?;
    with_design(rt, alloc, &design, order)
}

fn with_design<R: Threads + Wait + Print + Sync>(
    rt: &R,
    alloc: Global,
    design: &Design,
    order: Order,
) -> io::Result<()>
    requires { IsPlayed design.now }
{
    let tree = along(alloc, design.frame().shape)?;
    with_tree(rt, alloc, design, &tree, order)
}

/// The same, with a tree along the row.
fn with_tree<R: Threads + Wait + Print + Sync>(
    rt: &R,
    alloc: Global,
    design: &Design,
    tree: &RouteTree,
    order: Order,
) -> io::Result<()>
    requires { AreOfRow (capacity_of design.now) design.now tree.now }
{
    match order {
        Order::Rows => rows(rt, alloc, design, tree),
        Order::Copies(count) => println!(rt; "{}", copies(alloc, tree, count)?),
        Order::Claims(claims) => crowd::run(rt, alloc, design, tree, Task::Time(claims)),
    }
}

fn rows<R: Threads + Wait + Print + Sync>(
    rt: &R,
    alloc: Global,
    design: &Design,
    tree: &RouteTree,
) -> io::Result<()>
    requires { AreOfRow (capacity_of design.now) design.now tree.now }
{
    alone::show(rt, alloc, design, tree)?;
    turns::show(rt, alloc, design, tree)?;
    crowd::run(rt, alloc, design, tree, Task::Play(Game::Pair))?;
    crowd::run(rt, alloc, design, tree, Task::Play(Game::Crowd))
}

/// How many nodes so many copies of the tree have.
fn copies(alloc: Global, tree: &RouteTree, count: u32) -> Result<u64, AllocError> {
    let mut nodes: u64 = 0;
    for _ in 0..count {
        nodes = nodes.wrapping_add(u64::from(tree.copy(alloc)?.len()));
    }
    Ok(nodes)
}
