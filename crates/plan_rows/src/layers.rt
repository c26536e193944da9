//! Layers of the edges of flat trees.
ghost use Rattle.std.specs.Prelude.{◌≡◌, ◌<◌, ◌≤◌, length, IsTrue};
ghost use Rattle.gr_base.specs.Grid.{cells_of};
ghost use Rattle.gr_base.specs.Trees.{holds, IsTree};
ghost use Rattle.layer_assign.specs.Assignments.{IsFlat, ArePins, tile_count, tile_of};

use crate::numbers::{at, from};
use crate::priced::Priced;
use crate::trees::{stepped, tell_nodes};
use gr_base::{RouteTree, Shape, Way};
use layer_assign::{LayerRoom, Layers, assign, raise};
use std::alloc::Global;
use std::io;

/// Prints the layers of a flat tree's edges on a grid of three layers, and the tree raised from it.
pub(crate) fn tell<R: Print>(rt: &R, alloc: Global, numbers: &[u64]) -> io::Result<()> {
    let (columns, rows) = (at(numbers, 0), at(numbers, 1));
    let Some(shape) = Shape::new(columns, rows, 3) else {
        return Ok(());
    };
    let Some(floor) = Shape::new(columns, rows, 1) else {
        return Ok(());
    };
    let start = at(numbers, 8);
    if start >= floor.cells() {
        return Ok(());
    }
    let flat = stepped(alloc, floor, start, from(numbers, 9))?;
    tell_over(rt, alloc, shape, &flat, numbers)
}

/// Prints them for the tree and the numbers of its pins and costs.
fn tell_over<R: Print>(
    rt: &R,
    alloc: Global,
    shape: Shape,
    flat: &RouteTree,
    numbers: &[u64],
) -> io::Result<()>
    requires { IsFlat shape flat.now.shape }
{
    let (a, b) = (at(numbers, 6), at(numbers, 7));
    if !is_pin(shape, flat, a) || !is_pin(shape, flat, b) {
        return Ok(());
    }
    let costs = Priced::but_one(shape, at(numbers, 2), numbers, 3);
    let mut room = LayerRoom::new(alloc, shape)?;
    tell_in(rt, alloc, &costs, flat, &[a, b], &mut room)
}

/// Whether the cell lies over a tile of the tree.
fn is_pin(shape: Shape, flat: &RouteTree, cell: u32) -> bool
    ensures inside { IsTrue result → cell < cells_of shape }
    ensures tile { IsTrue result → IsTrue (holds flat.now (tile_of shape cell)) }
    ensures tree { IsTrue result → IsTree flat.now }
{
    let tiles = shape.stride(Way::Up);
    if cell >= shape.cells() || tiles == 0 {
        return false;
    }
    flat.node_at(cell % tiles).is_some()
}

/// Prints them for these costs and pins.
fn tell_in<R: Print>(
    rt: &R,
    alloc: Global,
    costs: &Priced,
    flat: &RouteTree,
    pins: &[u32],
    room: &mut LayerRoom,
) -> io::Result<()>
    requires flat { IsFlat costs.now.shape flat.now.shape }
    requires tree { IsTree flat.now }
    requires pins { ArePins costs.now.shape flat.now pins.now }
    requires room { tile_count costs.now.shape ≤ room.old }
{
    let layers = assign(alloc, costs, costs.shape, flat, pins, room)?;
    tell_layers(rt, flat, &layers)?;
    let tree = raise(alloc, costs.shape, flat, &layers, pins, room)?;
    tell_nodes(rt, &tree)
}

/// Prints the layers of the edges of a tree's nodes.
fn tell_layers<R: Print>(rt: &R, flat: &RouteTree, layers: &Layers) -> io::Result<()>
    requires { length layers.now ≡ length flat.now.nodes }
{
    for node in 1..flat.len() {
        println!(rt; "layer {}", layers.layer(node))?;
    }
    Ok(())
}
