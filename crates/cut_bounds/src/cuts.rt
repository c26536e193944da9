//! What the nets need across straight cuts, and what these hold.
ghost use Rattle.std.specs.Prelude.{◌≡◌, ◌==◌, ◌∷◌, ℕ, ◌+◌, ◌*◌, ◌^◌, ◌<◌, ◌≤◌, nat_le, nat_lt, not, ◌&&◌, List};
ghost use Rattle.std.specs.Prelude.{All, length, map, slice_index, sum_by, IfOk};
ghost use Rattle.std.specs.List.{list_any};
ghost use Rattle.gr_base.specs.declared.grid.Shape.{Shape};
ghost use Rattle.cut_bounds.specs.NetTiles.{AreWhole, Placed, placed_in};
ghost use Rattle.cut_bounds.specs.Cuts.{AreCounted, AreSums, AreWithin, is_reached, is_passed, line_needs};
ghost use Rattle.cut_bounds.specs.Cuts.{lines_of, line_holds, wires_along};
ghost use Rattle.cut_bounds.specs.TileWires.{held_by, sum_below, tiles_of};

use crate::axis::{Axis, Tile};
use crate::gains::gain;
use crate::net_tiles::NetTiles;
use crate::tile_wires::TileWires;
use gr_base::Shape;
use std::alloc::{AllocError, Global};

impl TileWires {
    /// What the wires hold that lead from tiles to the next line.
    fn along(&self, axis: Axis) -> &[u64]
        ensures { result.now ≡ wires_along axis self.now }
    {
        match axis {
            Axis::Columns => &self.east,
            Axis::Rows => &self.north,
        }
    }
}

/// How many columns or rows there are.
pub(crate) fn lines(shape: Shape, axis: Axis) -> u32
    ensures { result ≡ lines_of shape axis }
{
    match axis {
        Axis::Columns => shape.columns(),
        Axis::Rows => shape.rows(),
    }
}

/// The first and the last line that some tiles lie in.
#[derive(Clone, Copy)]
struct Reach {
    first: u32,
    last: u32,
}

/// The first and the last line of tiles.
fn reach_of(tiles: &[Tile], axis: Axis) -> Reach
    requires { 0 < length tiles.now }
    ensures reached { (line : ℕ) → is_reached axis line tiles.now ≡ nat_le result.first line }
    ensures passed { (line : ℕ) → is_passed axis line tiles.now ≡ nat_le result.last line }
    ensures first { (lines : ℕ) → AreWithin axis lines tiles.now → result.first < lines }
    ensures last { (lines : ℕ) → AreWithin axis lines tiles.now → result.last < lines }
{
    let start = tiles[0].along(axis);
    let mut reach = Reach {
        first: start,
        last: start,
    };
    for tile in tiles {
        let line = tile.along(axis);
        reach = Reach {
            first: reach.first.min(line),
            last: reach.last.max(line),
        };
    }
    reach
}

/// What the nets have that begin in each line, and what those have that end in it.
#[derive(Drop)]
struct LineNeeds {
    begun: Vec<u64>,
    ended: Vec<u64>,
}

/// What the nets need of the cut behind each line. The only error is want of memory.
pub(crate) fn needs_by_line(
    alloc: Global,
    nets: &NetTiles,
    axis: Axis,
    lines: u32,
) -> Result<Vec<u64>, AllocError>
    requires whole { AreWhole nets.now }
    requires some { All (λ net. 0 < length net.tiles) (placed_in nets.now) }
    requires within { All (λ net. AreWithin axis lines net.tiles) (placed_in nets.now) }
    requires few { sum_by (λ net. net.need) (placed_in nets.now) < 2 ^ 63 }
    ensures long { IfOk result (λ needs. length needs.items ≡ lines) }
    ensures needs { (line : ℕ) → line < lines → IfOk result (λ needs.
        slice_index needs.items line ≡ line_needs axis line (placed_in nets.now)) }
{
    let ends = ends_by_line(alloc, nets, axis, lines)?;
    let mut needs = Vec::with_capacity(alloc, lines as usize)?;
    let mut need: u64 = 0;
    for line in 0..lines as usize {
        need = need + ends.begun[line] - ends.ended[line];
        needs.push(need)?;
    }
    Ok(needs)
}

/// What the nets need, by the lines in which they begin, and by those in which they end.
fn ends_by_line(
    alloc: Global,
    nets: &NetTiles,
    axis: Axis,
    lines: u32,
) -> Result<LineNeeds, AllocError>
    requires whole { AreWhole nets.now }
    requires some { All (λ net. 0 < length net.tiles) (placed_in nets.now) }
    requires within { All (λ net. AreWithin axis lines net.tiles) (placed_in nets.now) }
    requires few { sum_by (λ net. net.need) (placed_in nets.now) < 2 ^ 63 }
    ensures { IfOk result (λ ends. AreSums axis lines (placed_in nets.now) ends.begun.items ends.ended.items) }
{
    let mut ends = LineNeeds {
        begun: vec![in alloc; 0; lines as usize]?,
        ended: vec![in alloc; 0; lines as usize]?,
    };
    let mut rest = nets.tiles.as_slice();
    for net_need in &nets.net_needs {
        let (tiles, others) = rest.split_at(net_need.pins as usize);
        add_net(&mut ends, tiles, net_need.need, axis);
        rest = others;
    }
    Ok(ends)
}

/// Adds what a net needs to the lines in which it begins and ends.
fn add_net(ends: &mut LineNeeds, tiles: &[Tile], need: u32, axis: Axis)
    requires some { 0 < length tiles.now }
    requires begun { AreWithin axis (length ends.old.begun.items) tiles.now }
    requires ended { AreWithin axis (length ends.old.ended.items) tiles.now }
    requires begun_room { (line : ℕ) → slice_index ends.old.begun.items line < 2 ^ 63 }
    requires ended_room { (line : ℕ) → slice_index ends.old.ended.items line < 2 ^ 63 }
    ensures begun_long { length ends.new.begun.items ≡ length ends.old.begun.items }
    ensures ended_long { length ends.new.ended.items ≡ length ends.old.ended.items }
    ensures counted { (nets all : List Placed) →
        AreCounted axis ends.old.begun.items ends.old.ended.items
        (record { need = need; tiles = tiles.now } ∷ nets) all →
        AreCounted axis ends.new.begun.items ends.new.ended.items nets all }
{
    let reach = reach_of(tiles, axis);
    let need = u64::from(need);
    gain(&mut ends.begun, reach.first as usize, need);
    gain(&mut ends.ended, reach.last as usize, need);
}

/// What the cut behind each line holds. The only error is want of memory.
pub(crate) fn holds_by_line(
    alloc: Global,
    wires: &TileWires,
    shape: Shape,
    axis: Axis,
) -> Result<Vec<u64>, AllocError>
    requires east { length wires.now.east.items ≡ tiles_of shape }
    requires north { length wires.now.north.items ≡ tiles_of shape }
    requires few { sum_below (tiles_of shape) (held_by wires.now) < 2 ^ 62 }
    ensures long { IfOk result (λ holds. length holds.items ≡ lines_of shape axis) }
    ensures holds { (line : ℕ) → line < lines_of shape axis → IfOk result (λ holds.
        slice_index holds.items line ≡ line_holds shape axis line wires.now) }
{
    let columns = shape.columns();
    let mut holds = vec![in alloc; 0; lines(shape, axis) as usize]?;
    let mut tile = Tile { x: 0, y: 0 };
    for more in wires.along(axis) {
        gain(&mut holds, tile.along(axis) as usize, *more);
        tile = tile.next(columns);
    }
    Ok(holds)
}
