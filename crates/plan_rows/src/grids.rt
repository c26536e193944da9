//! The grid, and the routes of nets.
ghost use Rattle.std.specs.Prelude.{◌≡◌, ◌<◌, length};
ghost use Rattle.gr_base.specs.Grid.{cells_of};

use crate::numbers::at;
use gr_base::{RouteTree, Routes, Shape};
use std::alloc::{AllocError, Global};
use std::io;

/// The grid of the first three numbers.
pub(crate) fn grid_of(numbers: &[u64]) -> Option<Shape> {
    Shape::new(at(numbers, 0), at(numbers, 1), at(numbers, 2))
}

/// Prints a grid's numbers.
pub(crate) fn tell_grid<R: Print>(rt: &R, numbers: &[u64]) -> io::Result<()> {
    let Some(shape) = grid_of(numbers) else {
        return println!(rt; "no grid");
    };
    println!(rt; "{} columns, {} rows", shape.columns(), shape.rows())?;
    println!(rt; "{} layers, {} cells", shape.layers(), shape.cells())
}

/// Prints the edge between two cells.
pub(crate) fn tell_edge<R: Print>(rt: &R, numbers: &[u64]) -> io::Result<()> {
    let Some(shape) = grid_of(numbers) else {
        return Ok(());
    };
    let (a, b) = (at(numbers, 3), at(numbers, 4));
    if a >= shape.cells() || b >= shape.cells() {
        return Ok(());
    }
    println!(rt; "{:?}", shape.edge_between(a, b))
}

/// Sets two trees of a net, and prints which nets then have one, and which cells it holds.
pub(crate) fn tell_routes<R: Print>(rt: &R, alloc: Global, numbers: &[u64]) -> io::Result<()> {
    let Some(shape) = grid_of(numbers) else {
        return Ok(());
    };
    let (nets, net) = (at(numbers, 3), at(numbers, 4));
    let (a, b) = (at(numbers, 5), at(numbers, 6));
    if net >= nets || nets > 100 || a >= shape.cells() || b >= shape.cells() {
        return Ok(());
    }
    let mut routes = Routes::new(alloc, nets)?;
    set(alloc, &mut routes, net, shape, a)?;
    set(alloc, &mut routes, net, shape, b)?;
    for other in 0..=nets {
        println!(rt; "net {other} has a tree: {}", routes.get(other).is_some())?;
    }
    tell_held(rt, &routes, net, a)?;
    tell_held(rt, &routes, net, b)
}

/// Sets a tree of one cell.
fn set(
    alloc: Global,
    routes: &mut Routes,
    net: u32,
    shape: Shape,
    cell: u32,
) -> Result<(), AllocError>
    requires net { net < length routes.old }
    requires cell { cell < cells_of shape }
    ensures { length routes.new ≡ length routes.old }
{
    let tree = RouteTree::start(alloc, shape, cell)?;
    routes.set(net, tree);
    Ok(())
}

/// Prints the node of a cell in a net's tree.
fn tell_held<R: Print>(rt: &R, routes: &Routes, net: u32, cell: u32) -> io::Result<()> {
    match routes.get(net) {
        Some(tree) => println!(rt; "cell {cell}: node {:?}", tree.node_at(cell)),
        None => Ok(()),
    }
}
