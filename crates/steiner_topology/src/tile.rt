//! The geometry of tiles: how far apart two of them are, and where ways between three can meet.
ghost use Rattle.std.specs.Prelude.{◌≡◌, ◌+◌, ◌<◌, ◌^◌};
ghost use Rattle.steiner_topology.specs.Tile.{distance, median, middle};

use crate::point::Tile;

/// The distance between two tiles: by how much they differ in column and in row.
pub fn distance(a: Tile, b: Tile) -> u64
    ensures distance { result ≡ distance a b }
    ensures bounded { result < 2 ^ 33 }
{
    u64::from(a.0.abs_diff(b.0)) + u64::from(a.1.abs_diff(b.1))
}

/// The tile in the middle of three, in columns and in rows: ways between each two of them can
/// meet there without growing longer.
pub fn middle(a: Tile, b: Tile, c: Tile) -> Tile
    ensures { result ≡ middle a b c }
{
    (median(a.0, b.0, c.0), median(a.1, b.1, c.1))
}

fn median(a: u32, b: u32, c: u32) -> u32
    ensures { result ≡ median a b c }
{
    a.min(b).max(a.max(b).min(c))
}
