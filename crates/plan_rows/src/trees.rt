//! Trees, and indices of their nodes.
ghost use Rattle.std.specs.Prelude.{◌≡◌, ◌<◌, ◌≤◌, length, IfOk};
ghost use Rattle.gr_base.specs.Grid.{cells_of};
ghost use Rattle.gr_base.specs.NodeIndexes.{Indexes};

use crate::grids::grid_of;
use crate::mazes::grown;
use crate::numbers::{at, from};
use crate::priced::Priced;
use gr_base::{NodeIndex, RouteTree, Shape};
use std::alloc::{AllocError, Global};
use std::io;

/// Prints how many nodes a tree has, and each.
pub(crate) fn tell_nodes<R: Print>(rt: &R, tree: &RouteTree) -> io::Result<()> {
    println!(rt; "{} nodes", tree.len())?;
    for node in 0..tree.len() {
        tell_node(rt, tree, node)?;
    }
    Ok(())
}

/// Prints a node's cell, its parent, and the edge between.
fn tell_node<R: Print>(rt: &R, tree: &RouteTree, node: u32) -> io::Result<()>
    requires { node < length tree.now.nodes }
{
    let (cell, parent) = (tree.cell(node), tree.parent(node));
    println!(rt;
        "cell {cell}, parent {parent}, {:?}",
        tree.edge_to_parent(node)
    )
}

/// Prints the tree of a least walk in a whole grid, and the node of a cell in it.
pub(crate) fn tell_tree<R: Print>(rt: &R, alloc: Global, numbers: &[u64]) -> io::Result<()> {
    let Some(shape) = grid_of(numbers) else {
        return Ok(());
    };
    let costs = Priced::but_one(shape, 0, numbers, 3);
    let Some(tree) = grown(alloc, &costs, at(numbers, 6), at(numbers, 7))? else {
        return Ok(());
    };
    tell_copy(rt, alloc, &tree, at(numbers, 8))
}

/// Prints a copy of a tree, where its look-ups find its nodes, and the node of a cell.
fn tell_copy<R: Print>(rt: &R, alloc: Global, tree: &RouteTree, cell: u32) -> io::Result<()> {
    let copy = tree.copy(alloc)?;
    tell_nodes(rt, &copy)?;
    tell_found(rt, &copy)?;
    println!(rt; "of one grid: {}", copy.shape() == tree.shape())?;
    println!(rt; "cell {cell}: node {:?}", copy.node_at(cell))
}

/// Prints for each node the one that is found by its cell, and its wire.
fn tell_found<R: Print>(rt: &R, tree: &RouteTree) -> io::Result<()> {
    for node in 0..tree.len() {
        let found = tree.node_at(tree.cell(node));
        println!(rt; "node {found:?}, wire {:?}", tree.wire_to_parent(node))?;
    }
    Ok(())
}

/// Prints where one index finds cells in a tree and then in another.
pub(crate) fn tell_index<R: Print>(rt: &R, alloc: Global, numbers: &[u64]) -> io::Result<()> {
    let Some(shape) = grid_of(numbers) else {
        return Ok(());
    };
    let costs = Priced::but_one(shape, 0, numbers, 3);
    let mut index = NodeIndex::new(alloc, shape.cells())?;
    let asked = from(numbers, 10);
    let ends = (at(numbers, 6), at(numbers, 7));
    tell_indexed(rt, alloc, &mut index, &costs, ends, asked)?;
    let ends = (at(numbers, 8), at(numbers, 9));
    tell_indexed(rt, alloc, &mut index, &costs, ends, asked)
}

/// Prints where the index finds cells in the tree of a least walk.
fn tell_indexed<R: Print>(
    rt: &R,
    alloc: Global,
    index: &mut NodeIndex,
    costs: &Priced,
    ends: (u32, u32),
    asked: &[u64],
) -> io::Result<()>
    requires { cells_of costs.now.shape ≤ length index.old }
    ensures { length index.new ≡ length index.old }
{
    let Some(tree) = grown(alloc, costs, ends.0, ends.1)? else {
        return Ok(());
    };
    index.extend(&tree, 0);
    tell_asked(rt, index, &tree, asked)
}

/// Prints where the index finds cells in a tree.
fn tell_asked<R: Print>(
    rt: &R,
    index: &NodeIndex,
    tree: &RouteTree,
    asked: &[u64],
) -> io::Result<()>
    requires cells { cells_of tree.now.shape ≤ length index.now }
    requires index { Indexes index.now tree.now.nodes }
{
    for place in 0..asked.len() {
        let cell = at(asked, place);
        if cell < tree.shape().cells() {
            println!(rt; "cell {cell}: node {:?}", index.node_at(tree, cell))?;
        }
    }
    Ok(())
}

/// The tree that starts at a cell and takes, step by step, a cell and the neighbour that it hangs on.
pub(crate) fn stepped(
    alloc: Global,
    shape: Shape,
    start: u32,
    steps: &[u64],
) -> Result<RouteTree, AllocError>
    requires { start < cells_of shape }
    ensures { IfOk result (λ tree. tree.shape ≡ shape) }
{
    let mut tree = RouteTree::start(alloc, shape, start)?;
    for pair in 0..steps.len() / 2 {
        step(&mut tree, at(steps, 2 * pair), at(steps, 2 * pair + 1))?;
    }
    Ok(tree)
}

/// Hangs a cell on a neighbour in the tree.
fn step(tree: &mut RouteTree, cell: u32, parent: u32) -> Result<(), AllocError>
    ensures { tree.new.shape ≡ tree.old.shape }
{
    let shape = tree.shape();
    if cell >= shape.cells() || parent >= shape.cells() || cell == parent {
        return Ok(());
    }
    if shape.edge_between(cell, parent).is_none() {
        return Ok(());
    }
    if tree.node_at(cell).is_some() || tree.node_at(parent).is_none() {
        return Ok(());
    }
    tree.attach(&[cell, parent])
}
