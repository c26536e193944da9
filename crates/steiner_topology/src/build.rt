//! Builds a topology in a caller's room: Prim's tree of the tiles, then a branch for each join where one saves length.
ghost use Rattle.std.specs.Prelude.{◌≡◌, ◌+◌, ◌*◌, ◌<◌, ◌≤◌, ◌^◌, length, map, take, fold, All, IfOk, OnOk};
ghost use Rattle.steiner_topology.specs.Joins.{AreInside, joins_of};
ghost use Rattle.steiner_topology.specs.Topology.{with_pair, loose_points, topology_of, wirelength, tiles_of};
ghost use Rattle.steiner_topology.specs.Spanning.{IsTopology, IsSpanningTree, IsShortest, IsLeast, total_span};

use crate::branch::handle;
use crate::children::{Children, put_child_lists};
use crate::point::{Join, Point, Tile};
use crate::prim::joins_of;
use crate::room::TopologyRoom;
use crate::tree::Topology;
use std::alloc::{AllocError, Global};
use std::mem;

/// The topology of the tiles, of which the first is the driver's: Prim's tree, then for each point
/// in the order of joining a point more where its way to its parent can be shared with that of
/// another neighbour of the parent. There is at least one tile, and fewer than 2^31. Takes time in
/// the square of the number of tiles. The only error is want of memory.
pub fn topology(
    alloc: Global,
    tiles: &[Tile],
    room: &mut TopologyRoom,
) -> Result<Topology, AllocError>
    requires some { 0 < length tiles.now }
    requires few { length tiles.now < 2 ^ 31 }
    ensures exact { IfOk result (λ t. t ≡ topology_of tiles.now) }

    // The points are a tree: the tiles come first, and there are fewer further points than tiles.
    ensures tree { IfOk result IsTopology }
    ensures tiles { IfOk result (λ t. take (length tiles.now) (tiles_of t) ≡ tiles.now) }
    ensures len { IfOk result (λ t. length t < 2 * length tiles.now) }

    // It is no longer than Prim's tree, nor than any other tree between the tiles. For three tiles
    // it is no longer than any tree that joins them.
    ensures prim_tree { IsSpanningTree tiles.now (joins_of tiles.now) }
    ensures prim { IfOk result (λ t. wirelength t ≤ total_span tiles.now (joins_of tiles.now)) }
    ensures shortest { IfOk result (IsShortest tiles.now) }
    ensures least { length tiles.now ≡ 3 → IfOk result (IsLeast tiles.now) }
{
    joins_of(tiles, &mut room.waiting, &mut room.joins)?;
    let points = mem::replace(&mut room.points, Vec::new(alloc));
    build(alloc, tiles, &room.joins, points, &mut room.children)
}

/// The same, where Prim's tree is known. The points are put in place of those that the list holds.
fn build(
    alloc: Global,
    tiles: &[Tile],
    joins: &[Join],
    mut points: Vec<Point>,
    children: &mut Vec<Children>,
) -> Result<Topology, AllocError>
    requires some { 0 < length tiles.now }
    requires few { length tiles.now < 2 ^ 31 }
    requires joins { joins.now ≡ joins_of tiles.now }
    ensures { IfOk result (λ t. t ≡ topology_of tiles.now) }
{
    put_joined_points(tiles, joins, &mut points)?;
    put_child_lists(alloc, &points, children)?;
    for &join in joins {
        handle(&mut points, children, join)?;
    }
    Ok(Topology::from_points(points))
}

/// Puts the tiles as points, hung by the pairs, in place of what a list holds.
fn put_joined_points(
    tiles: &[Tile],
    joins: &[Join],
    points: &mut Vec<Point>,
) -> Result<(), AllocError>
    requires few { length tiles.now < 2 ^ 31 }
    requires inside { All (AreInside tiles.now) joins.now }
    ensures { OnOk result (points.new.items ≡ fold with_pair (loose_points tiles.now) joins.now) }
{
    put_loose_points(tiles, points)?;
    for join in joins {
        points[join.point as usize].parent = join.parent;
    }
    Ok(())
}

/// Puts the tiles as points, each its own parent, in place of what a list holds, with room for as
/// many points more.
fn put_loose_points(tiles: &[Tile], points: &mut Vec<Point>) -> Result<(), AllocError>
    requires few { length tiles.now < 2 ^ 31 }
    ensures { OnOk result (points.new.items ≡ loose_points tiles.now) }
{
    points.clear();
    points.reserve(2 * tiles.len())?;
    for parent in 0..tiles.len() as u32 {
        let tile = tiles[parent as usize];
        points.push(Point { tile, parent })?;
    }
    Ok(())
}
