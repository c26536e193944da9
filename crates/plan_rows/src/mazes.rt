//! Least walks, and the queue by which they are found.
ghost use Rattle.std.specs.Prelude.{◌≡◌, ◌<◌, ◌≤◌, ◌∷◌, [], length, IfOk, IfSome, IsTrue};
ghost use Rattle.gr_base.specs.Grid.{cells_of};
ghost use Rattle.gr_base.specs.Trees.{node_of, IsWalkTo};
ghost use Rattle.maze_route.specs.Windows.{IsWindow, in_window, LieIn};

use crate::grids::grid_of;
use crate::numbers::{at, great};
use crate::priced::Priced;
use gr_base::{Cells, RouteTree, Shape};
use maze_route::{BucketQueue, Window, least_walk};
use std::alloc::{AllocError, Global};
use std::io;

/// The least walk to a tree of one cell.
fn walk_to(
    alloc: Global,
    costs: &Priced,
    window: Window,
    tree: &RouteTree,
    goals: &[u32],
    from: u32,
) -> Result<Cells, AllocError>
    requires tree { tree.now ≡ record { shape = costs.now.shape; nodes = node_of from 0 ∷ [] } }
    requires window { IsWindow costs.now.shape window }
    requires from { IsTrue (in_window costs.now.shape window from) }
    requires goals { LieIn costs.now.shape window goals.now }
    requires some { 0 < length goals.now }
    ensures { IfOk result (IsWalkTo tree.now) }
{
    least_walk(alloc, costs, window, tree, goals)
}

/// The least walk in a window from the nearest goal to a cell.
pub(crate) fn walk_of(
    alloc: Global,
    costs: &Priced,
    window: Window,
    from: u32,
    goals: &[u32],
) -> Result<Cells, AllocError>
    requires window { IsWindow costs.now.shape window }
    requires from { IsTrue (in_window costs.now.shape window from) }
    requires inside { from < cells_of costs.now.shape }
    requires goals { LieIn costs.now.shape window goals.now }
    requires some { 0 < length goals.now }
{
    let tree = RouteTree::start(alloc, costs.shape, from)?;
    walk_to(alloc, costs, window, &tree, goals, from)
}

/// Whether the cell is one of the window's.
fn lies_in(shape: Shape, window: Window, cell: u32) -> bool
    ensures { result ≡ in_window shape window cell }
{
    cell < shape.cells() && window.holds(shape.place_of(cell))
}

/// The tree of the least walk from one cell to another in the whole grid.
pub(crate) fn grown(
    alloc: Global,
    costs: &Priced,
    start: u32,
    goal: u32,
) -> Result<Option<RouteTree>, AllocError>
    ensures { IfOk result (λ tree. IfSome tree (λ tree. tree.shape ≡ costs.now.shape)) }
{
    let shape = costs.shape;
    let window = Window {
        x0: 0,
        y0: 0,
        x1: shape.columns() - 1,
        y1: shape.rows() - 1,
    };
    if start >= shape.cells() || !lies_in(shape, window, start) || !lies_in(shape, window, goal) {
        return Ok(None);
    }
    let mut tree = RouteTree::start(alloc, shape, start)?;
    let walk = walk_to(alloc, costs, window, &tree, &[goal], start)?;
    tree.attach(walk.as_slice())?;
    Ok(Some(tree))
}

/// The window of the numbers from 6 on.
fn window_of(shape: Shape, numbers: &[u64]) -> Option<Window>
    ensures { IfSome result (IsWindow shape) }
{
    let window = Window {
        x0: at(numbers, 6),
        x1: at(numbers, 7),
        y0: at(numbers, 8),
        y1: at(numbers, 9),
    };
    let is_in_order = window.x0 <= window.x1 && window.y0 <= window.y1;
    if is_in_order && window.x1 < shape.columns() && window.y1 < shape.rows() {
        Some(window)
    } else {
        None
    }
}

/// Prints a least walk in a window to one goal, or to the nearest of two.
pub(crate) fn tell<R: Print>(rt: &R, alloc: Global, numbers: &[u64]) -> io::Result<()> {
    let Some(shape) = grid_of(numbers) else {
        return Ok(());
    };
    let Some(window) = window_of(shape, numbers) else {
        return Ok(());
    };
    let costs = Priced::but_one(shape, 0, numbers, 3);
    let (start, goal, other) = (at(numbers, 10), at(numbers, 11), at(numbers, 12));
    if start >= shape.cells() || !lies_in(shape, window, start) || !lies_in(shape, window, goal) {
        return Ok(());
    }
    if numbers.len() > 12 && lies_in(shape, window, other) {
        return tell_walk(rt, alloc, &costs, window, start, &[goal, other]);
    }
    tell_walk(rt, alloc, &costs, window, start, &[goal])
}

/// Prints the least walk to the nearest of the goals.
fn tell_walk<R: Print>(
    rt: &R,
    alloc: Global,
    costs: &Priced,
    window: Window,
    start: u32,
    goals: &[u32],
) -> io::Result<()>
    requires window { IsWindow costs.now.shape window }
    requires start { IsTrue (in_window costs.now.shape window start) }
    requires inside { start < cells_of costs.now.shape }
    requires goals { LieIn costs.now.shape window goals.now }
    requires some { 0 < length goals.now }
{
    let walk = walk_of(alloc, costs, window, start, goals)?;
    println!(rt; "{:?}", walk.as_slice())
}

/// Prints the keys that a queue gives of those put in, and what it gives where it is empty.
pub(crate) fn tell_queue<R: Print>(rt: &R, alloc: Global, numbers: &[u64]) -> io::Result<()> {
    let mut queue = filled(alloc, numbers)?;
    for _ in 0..=numbers.len() / 2 {
        let key = queue.pop().map(|pair| pair.0);
        println!(rt; "{key:?}")?;
    }
    Ok(())
}

/// A queue of these pairs of a key and a cell.
fn filled(alloc: Global, numbers: &[u64]) -> Result<BucketQueue, AllocError> {
    let mut queue = BucketQueue::new(alloc);
    for pair in 0..numbers.len() / 2 {
        queue.push(great(numbers, 2 * pair), at(numbers, 2 * pair + 1))?;
    }
    Ok(queue)
}
