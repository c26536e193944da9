//! The grid of a design.
ghost use Rattle.std.specs.Prelude.{IsTrue};
ghost use Rattle.gr_base.specs.Limits.{is_grid};

/// A cell of the grid: a tile on a layer. Columns, rows and layers count from 0.
#[derive(Clone, Copy, Debug, PartialEq, Eq)]
pub struct Cell {
    pub x: u32,
    pub y: u32,
    pub layer: u32,
}

/// The way that an edge goes from its end of lower number: to the next column, row or layer.
#[derive(Clone, Copy, Debug, PartialEq, Eq)]
pub enum Way {
    East,
    North,
    Up,
}

/// A unit edge between two neighbouring cells, named by its end of lower number.
/// East and North edges are wire edges, Up edges are via edges.
#[derive(Clone, Copy, Debug, PartialEq, Eq)]
pub struct Edge {
    pub low: u32,
    pub way: Way,
}

/// How many columns, rows and layers a grid has: at least one of each, at most 16 layers, and at
/// most 8,388,608 cells in all.
#[derive(Clone, Copy, Debug, PartialEq, Eq)]
pub struct Shape {
    pub columns: u32,
    pub rows: u32,
    pub layers: u32,
    pub ghost valid: { IsTrue (is_grid columns rows layers) },
}
