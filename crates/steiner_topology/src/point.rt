//! The plain values that topologies are made of and with: tiles, points, joins, and points that wait to be joined.

/// A tile: its column and its row.
pub type Tile = (u32, u32);

/// A point of a topology: its tile, and the number of its parent. Point 0 is its own parent.
#[derive(Clone, Copy, Debug, PartialEq, Eq)]
pub struct Point {
    pub tile: Tile,
    pub parent: u32,
}

/// A point that is joined to a tree, and the point of the tree that it is joined to.
#[derive(Clone, Copy, Debug, PartialEq, Eq)]
pub struct Join {
    pub point: u32,
    pub parent: u32,
}

/// A point that waits to be joined to a tree, its tile, the point of the tree that it is to be
/// joined to, and the distance between the two.
#[derive(Clone, Copy, Debug)]
pub(crate) struct Waiting {
    pub(crate) span: u64,
    pub(crate) tile: Tile,
    pub(crate) point: u32,
    pub(crate) parent: u32,
}
