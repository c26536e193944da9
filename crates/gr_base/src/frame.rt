//! The parts of a design.
use crate::cells::Cells;
use crate::grid::{Edge, Shape};
use crate::name::Name;

/// What a design says of one layer, in units of width: its capacities along columns and along rows,
/// from 0 to 1,000,000, its least width and spacing of wires, from 0 to 1,000, and its spacing of vias,
/// from 0 to 1,000, which nothing uses.
#[derive(Clone, Copy, Debug, PartialEq, Eq)]
pub struct Layer {
    pub vertical: u32,
    pub horizontal: u32,
    pub width: u32,
    pub spacing: u32,
    pub via: u32,
}

/// The grid, its layers, and where its tiles lie, in the units of the design. The entries of `layers`
/// past the grid's layers mean nothing, but are in range.
#[derive(Clone, Copy, Debug, PartialEq, Eq)]
pub struct Frame {
    pub shape: Shape,
    pub layers: [Layer; 16],
    /// The lower left corner of the chip, from -2^40 to 2^40 each way.
    pub lower_x: i64,
    pub lower_y: i64,
    /// The size of a tile, from 1 to 1,000,000 each way.
    pub tile_width: u32,
    pub tile_height: u32,
}

/// A net of a design: its first pin is its driver, the others are sinks. A pin is the number of a cell.
#[derive(Debug, Drop)]
pub struct Net {
    /// A token of the text.
    pub name: Name,
    /// From 0 to 2,147,483,647. No other net has it.
    pub id: u32,
    /// The least width of its wires, from 0 to 1,000, in units of width.
    pub width: u32,
    /// At least one.
    pub pins: Cells,
}

/// The capacity of one wire edge, in units of width, from 0 to 1,000,000.
#[derive(Clone, Copy, Debug, PartialEq, Eq)]
pub struct Adjustment {
    pub edge: Edge,
    pub capacity: u32,
}

/// A place on the chip, in the units of the design. Layers count from 1.
#[derive(Clone, Copy, Debug, PartialEq, Eq)]
pub struct Point {
    pub x: i64,
    pub y: i64,
    pub layer: u32,
}
