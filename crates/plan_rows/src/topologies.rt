//! Topologies of tiles.
ghost use Rattle.std.specs.Prelude.{◌<◌, ◌≤◌, length};

use crate::draws::Draws;
use crate::numbers::at;
use std::alloc::{AllocError, Global};
use std::io;
use steiner_topology::{Tile, Topology, TopologyRoom, topology};

/// Prints the topology of the tiles whose columns and rows the numbers are.
pub(crate) fn tell<R: Print>(rt: &R, alloc: Global, numbers: &[u64]) -> io::Result<()> {
    let tiles = tiles_of(alloc, numbers)?;
    if tiles.is_empty() || tiles.len() > 20 {
        return Ok(());
    }
    tell_topology(rt, alloc, &tiles)
}

/// The tiles whose columns and rows the numbers are.
fn tiles_of(alloc: Global, numbers: &[u64]) -> Result<Vec<Tile>, AllocError> {
    let mut tiles = Vec::new(alloc);
    for pair in 0..numbers.len() / 2 {
        tiles.push((at(numbers, 2 * pair), at(numbers, 2 * pair + 1)))?;
    }
    Ok(tiles)
}

/// Prints the points of the tiles' topology, and its length.
fn tell_topology<R: Print>(rt: &R, alloc: Global, tiles: &[Tile]) -> io::Result<()>
    requires some { 0 < length tiles.now }
    requires few { length tiles.now ≤ 20 }
{
    let mut room = TopologyRoom::new(alloc);
    let net = topology(alloc, tiles, &mut room)?;
    for point in 0..net.len() {
        println!(rt; "tile {:?}, parent {}", net.tile(point), net.parent(point))?;
    }
    println!(rt; "length {}", wirelength(&net))
}

/// The length of a topology, as a number that wraps.
fn wirelength(net: &Topology) -> u64 {
    let mut sum: u64 = 0;
    for point in 0..net.len() {
        let (x, y) = net.tile(point);
        let (u, v) = net.tile(net.parent(point));
        sum = sum.wrapping_add(u64::from(x.abs_diff(u)));
        sum = sum.wrapping_add(u64::from(y.abs_diff(v)));
    }
    sum
}

/// The tiles of a net of 2 to 20 pins.
fn drawn(alloc: Global, draws: &mut Draws) -> Result<Vec<Tile>, AllocError> {
    let count = 2 + draws.below(19);
    let mut tiles = Vec::new(alloc);
    for _ in 0..count {
        tiles.push((draws.below(300), draws.below(300)))?;
    }
    Ok(tiles)
}

/// The sum of the lengths of so many topologies.
pub(crate) fn sum(alloc: Global, count: u32) -> Result<u64, AllocError> {
    let mut draws = Draws::new();
    let mut room = TopologyRoom::new(alloc);
    let mut sum: u64 = 0;
    for _ in 0..count {
        let tiles = drawn(alloc, &mut draws)?;
        if tiles.is_empty() || tiles.len() > 20 {
            continue;
        }
        let topology = topology(alloc, &tiles, &mut room)?;
        sum = sum.wrapping_add(wirelength(&topology));
        room.give_back(topology);
    }
    Ok(sum)
}
