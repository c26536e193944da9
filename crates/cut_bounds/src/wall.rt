//! The walls as callers are told of them: plain values, with what the nets need of each and what it holds.

/// The tiles from column `x0` to column `x1`, in the rows from `y0` to `y1`: these four too. Columns and
/// rows count from 0.
#[derive(Clone, Copy, Debug, PartialEq, Eq)]
pub struct TileBox {
    pub x0: u32,
    pub y0: u32,
    pub x1: u32,
    pub y1: u32,
}

/// A wall: the straight cut behind a column or behind a row, which count from 0, or a box.
#[derive(Clone, Copy, Debug, PartialEq, Eq)]
pub enum Wall {
    Column(u32),
    Row(u32),
    Box(TileBox),
}

/// A wall with what the routed nets need of its edges, and what these hold, in units of width.
#[derive(Clone, Copy, Debug, PartialEq, Eq)]
pub struct MeasuredWall {
    pub wall: Wall,
    pub needs: u64,
    pub holds: u64,
}
