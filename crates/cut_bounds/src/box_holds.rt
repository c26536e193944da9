//! What the boxes of a side hold.
ghost use Rattle.std.specs.Prelude.{◌≡◌, ◌==◌, ℕ, ◌+◌, ◌<◌, ◌^◌, length, slice_index, IfOk};
ghost use Rattle.wall_laws.specs.Walls.{differ};
ghost use Rattle.cut_bounds.specs.Boxes.{boxes_on, IsOnChip};
ghost use Rattle.cut_bounds.specs.Crossings.{is_boxed, leads_out, out_holds};
ghost use Rattle.cut_bounds.specs.Cuts.{tile_at};
ghost use Rattle.cut_bounds.specs.TileWires.{held_by, passing_at, sum_below, tiles_of, where_so};

use crate::axis::Tile;
use crate::boxes::Boxes;
use crate::gains::gain;
use crate::tile_wires::TileWires;
use std::alloc::{AllocError, Global};

/// What each box of a side holds, by number. The only error is want of memory.
pub(crate) fn holds_by_box(
    alloc: Global,
    wires: &TileWires,
    boxes: Boxes,
) -> Result<Vec<u64>, AllocError>
    requires east { length wires.now.east.items ≡ tiles_of boxes.shape }
    requires north { length wires.now.north.items ≡ tiles_of boxes.shape }
    requires few { sum_below (tiles_of boxes.shape) (held_by wires.now) < 2 ^ 62 }
    ensures long { IfOk result (λ holds. length holds.items ≡ boxes_on boxes.shape boxes.level) }
    ensures holds { (n : ℕ) → n < boxes_on boxes.shape boxes.level → IfOk result (λ holds.
        slice_index holds.items n ≡ out_holds boxes.shape (is_boxed boxes.shape boxes.level n) wires.now) }
{
    let columns = boxes.shape.columns();
    let mut holds = vec![in alloc; 0; boxes.count()]?;
    let mut tile = Tile { x: 0, y: 0 };
    for number in 0..wires.east.len() {
        add_tile(&mut holds, wires, boxes, number, tile);
        tile = tile.next(columns);
    }
    Ok(holds)
}

/// Adds what the wires that lead from a tile hold to the boxes that they lead out of and into.
fn add_tile(holds: &mut Vec<u64>, wires: &TileWires, boxes: Boxes, number: usize, tile: Tile)
    requires east { number < length wires.now.east.items }
    requires north { number < length wires.now.north.items }
    requires tile { IsOnChip boxes.shape tile }
    requires long { length holds.old.items ≡ boxes_on boxes.shape boxes.level }
    requires room { (n : ℕ) → slice_index holds.old.items n + held_by wires.now number < 2 ^ 63 }
    ensures long { length holds.new.items ≡ length holds.old.items }
    ensures holds { (n : ℕ) → n < boxes_on boxes.shape boxes.level →
        slice_index holds.new.items n ≡ slice_index holds.old.items n +
        passing_at (λ way at. leads_out boxes.shape (is_boxed boxes.shape boxes.level n) way tile) wires.now number }
{
    let here = boxes.number(tile);
    if tile.x + 1 < boxes.shape.columns() {
        let right = Tile {
            x: tile.x + 1,
            y: tile.y,
        };
        add_wires(holds, here, boxes.number(right), wires.east[number]);
    }
    if tile.y + 1 < boxes.shape.rows() {
        let above = Tile {
            x: tile.x,
            y: tile.y + 1,
        };
        add_wires(holds, here, boxes.number(above), wires.north[number]);
    }
}

/// Adds what wires between two boxes hold to both, unless they are one.
#[inline(always)]
fn add_wires(holds: &mut Vec<u64>, from: usize, to: usize, more: u64)
    requires from { from < length holds.old.items }
    requires to { to < length holds.old.items }
    requires room { (n : ℕ) → slice_index holds.old.items n + more < 2 ^ 64 }
    ensures long { length holds.new.items ≡ length holds.old.items }
    ensures holds { (n : ℕ) → slice_index holds.new.items n ≡
        slice_index holds.old.items n + where_so (differ (from == n) (to == n)) more }
{
    if from != to {
        gain(holds, from, more);
        gain(holds, to, more);
    }
}
