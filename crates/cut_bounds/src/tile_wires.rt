//! What the wire edges between neighbouring tiles hold on all layers together.
ghost use Rattle.std.specs.Prelude.{◌≡◌, ◌≤◌, ℕ, ◌+◌, ◌*◌, ◌^◌, ◌<◌, length, slice_index, IfOk};
ghost use Rattle.gr_base.specs.Grid.{cells_of, edge_at, place_at};
ghost use Rattle.gr_base.specs.declared.grid.Way.TheVariants.{East, North};
ghost use Rattle.gr_base.specs.Limits.{most_capacity};
ghost use Rattle.wall_laws.specs.Spans.{tile_number};
ghost use Rattle.cut_bounds.specs.TileWires.{AreTileWires, tiles_of, edge_holds, gained};

use crate::gains::gain;
use gr_base::{Cell, Design, Edge, Way};
use grid_demand::Capacity;
use std::alloc::{AllocError, Global};

/// By tile, what the edges to the next column and to the next row hold on all layers together.
#[derive(Drop)]
pub(crate) struct TileWires {
    pub east: Vec<u64>,
    pub north: Vec<u64>,
}

impl TileWires {
    /// What the wires of a design hold. The only error is want of memory.
    pub(crate) fn of(alloc: Global, design: &Design) -> Result<TileWires, AllocError>
        ensures { IfOk result (AreTileWires design.now) }
    {
        let capacity = Capacity::of(alloc, design)?;
        let shape = design.frame().shape;
        let tiles = (shape.columns() * shape.rows()) as usize;
        let mut wires = TileWires {
            east: vec![in alloc; 0; tiles]?,
            north: vec![in alloc; 0; tiles]?,
        };
        for cell in 0..shape.cells() {
            wires.add_cell(&capacity, cell);
        }
        Ok(wires)
    }

    /// Adds what the wires that lead from a cell hold.
    fn add_cell(&mut self, capacity: &Capacity, cell: u32)
        requires cell { cell < cells_of capacity.now.shape }
        requires east { length self.old.east.items ≡ tiles_of capacity.now.shape }
        requires north { length self.old.north.items ≡ tiles_of capacity.now.shape }
        requires room { (tile : ℕ) →
            slice_index self.old.east.items tile + slice_index self.old.north.items tile < 2 ^ 62 }
        ensures east { self.new.east.items ≡ gained self.old.east.items (tile_number capacity.now.shape cell)
            (edge_holds capacity.now (edge_at cell East)) }
        ensures north { self.new.north.items ≡ gained self.old.north.items (tile_number capacity.now.shape cell)
            (edge_holds capacity.now (edge_at cell North)) }
        ensures east_most { edge_holds capacity.now (edge_at cell East) ≤ most_capacity }
        ensures north_most { edge_holds capacity.now (edge_at cell North) ≤ most_capacity }
    {
        let shape = capacity.shape();
        let place = shape.place_of(cell);
        let tile = (place.y * shape.columns() + place.x) as usize;
        gain(&mut self.east, tile, east_of(capacity, cell, place));
        gain(&mut self.north, tile, north_of(capacity, cell, place));
    }
}

/// What the edge from a cell to the next column holds, if there is one.
fn east_of(capacity: &Capacity, cell: u32, place: Cell) -> u64
    requires cell { cell < cells_of capacity.now.shape }
    requires place { place ≡ place_at capacity.now.shape cell }
    ensures value { result ≡ edge_holds capacity.now (edge_at cell East) }
    ensures most { result ≤ most_capacity }
{
    if place.x + 1 >= capacity.shape().columns() {
        return 0;
    }
    capacity.at(Edge {
        low: cell,
        way: Way::East,
    })
}

/// What the edge from a cell to the next row holds, if there is one.
fn north_of(capacity: &Capacity, cell: u32, place: Cell) -> u64
    requires cell { cell < cells_of capacity.now.shape }
    requires place { place ≡ place_at capacity.now.shape cell }
    ensures value { result ≡ edge_holds capacity.now (edge_at cell North) }
    ensures most { result ≤ most_capacity }
{
    if place.y + 1 >= capacity.shape().rows() {
        return 0;
    }
    capacity.at(Edge {
        low: cell,
        way: Way::North,
    })
}
