//! Finds Prim's tree of some tiles, in lists that the caller lends; the time is the square of their number.
ghost use Rattle.std.specs.Prelude.{◌≡◌, ◌<◌, ◌^◌, [], vec_len, length, map, OnOk, All};
ghost use Rattle.steiner_topology.specs.Joins.{AreInside, joins_of};
ghost use Rattle.steiner_topology.specs.Waits.{first_pairs, waits, nearer, IsFirst};

use crate::point::{Join, Tile, Waiting};
use crate::tile::distance;
use std::alloc::AllocError;

/// Puts Prim's tree in place of what `joins` holds: each point but point 0, in the order of joining,
/// with its parent. Of all pairs of a point that isn't joined and one that is, the first is joined,
/// by distance, then by point, then by parent. `waiting` is room for the points that aren't joined.
/// The only error is want of memory.
///
/// R. C. Prim, Shortest connection networks and some generalizations, 1957.
pub fn joins_of(
    tiles: &[Tile],
    waiting: &mut Vec<Waiting>,
    joins: &mut Vec<Join>,
) -> Result<(), AllocError>
    requires some { 0 < length tiles.now }
    requires few { length tiles.now < 2 ^ 31 }
    ensures joins { OnOk result (joins.new.items ≡ joins_of tiles.now) }
    ensures inside { OnOk result (All (AreInside tiles.now) joins.new.items) }
    ensures len { OnOk result (vec_len joins.new < length tiles.now) }
{
    put_waiting(tiles, waiting)?;
    joins.clear();
    let mut point = 0;
    while !waiting.is_empty() {
        let first = offer(waiting, tiles[point as usize], point);
        let next = waiting.remove(first);
        point = next.point;
        joins.push(Join {
            point,
            parent: next.parent,
        })?;
    }
    Ok(())
}

/// Puts each point but point 0, in its pair with point 0, in place of what a list holds.
fn put_waiting(tiles: &[Tile], waiting: &mut Vec<Waiting>) -> Result<(), AllocError>
    requires some { 0 < length tiles.now }
    requires few { length tiles.now < 2 ^ 31 }
    ensures { OnOk result (waiting.new.items ≡ map (waits tiles.now) (first_pairs tiles.now [])) }
{
    waiting.clear();
    for point in 1..tiles.len() as u32 {
        let tile = tiles[point as usize];
        let span = distance(tile, tiles[0]);
        waiting.push(Waiting {
            span,
            tile,
            point,
            parent: 0,
        })?;
    }
    Ok(())
}

/// Offers a joined point as a parent to each point that waits, of which there are some, and gives
/// the first place of the least distance. Points wait in their order, so the pair there is the one
/// that comes first.
fn offer(waiting: &mut Vec<Waiting>, tile: Tile, parent: u32) -> usize
    requires { 0 < vec_len waiting.old }
    ensures waiting { waiting.new.items ≡ map (nearer tile parent) waiting.old.items }
    ensures first { IsFirst waiting.new.items (vec_len waiting.new) result }
{
    let mut first = 0;
    // The distance at the first place doesn't grow.
    let mut least = waiting[0].span;
    for place in 0..waiting.len() {
        bring_nearer(&mut waiting[place], tile, parent);
        let span = waiting[place].span;
        if span < least {
            least = span;
            first = place;
        }
    }
    first
}

/// Puts a point into its pair with this parent, where that pair comes before the point's own. Few
/// points get nearer, so the others aren't written to.
fn bring_nearer(point: &mut Waiting, tile: Tile, parent: u32)
    ensures { point.new ≡ nearer tile parent point.old }
{
    let span = distance(point.tile, tile);
    if span < point.span || (span == point.span && parent < point.parent) {
        point.span = span;
        point.parent = parent;
    }
}
