//! Windows and their cells as a search holds them.
ghost use Rattle.std.specs.Prelude.{◌≡◌};
ghost use Rattle.maze_route.specs.Panes.{IsPane};
ghost use Rattle.maze_route.specs.Positions.{AreSmall};

use crate::divisor::Divisor;
use crate::window::Window;
use gr_base::{Cell, Shape};

/// The cells of a window, numbered from 0 in the order of their numbers in the grid.
#[derive(Clone, Copy, Debug)]
pub(crate) struct Pane {
    pub(crate) grid: Shape,
    pub(crate) window: Window,
    /// The window's columns and rows, and the grid's layers.
    pub(crate) shape: Shape,
    pub(crate) columns: Divisor,
    pub(crate) rows: Divisor,
    pub(crate) ghost fits: { IsPane grid window shape },
    pub(crate) ghost by_columns: { columns.by ≡ shape.columns },
    pub(crate) ghost by_rows: { rows.by ≡ shape.rows },
}

/// What a walk from a cell of a window to some box costs at least: a part by the cell's column, one
/// by its row, and what each via edge costs at least for each layer above `top`.
#[derive(Debug, Drop)]
pub(crate) struct Aim {
    pub(crate) columns: Vec<u64>,
    pub(crate) rows: Vec<u64>,
    pub(crate) via: u64,
    pub(crate) top: u32,
    pub(crate) ghost small: { AreSmall columns.items rows.items via },
}

/// A cell of a window: its number there and in the grid, and its place, counted from the window's
/// first column and row.
#[derive(Clone, Copy)]
pub(crate) struct Spot {
    pub(crate) local: u32,
    pub(crate) cell: u32,
    pub(crate) place: Cell,
}

/// A neighbour of a cell of a window.
#[derive(Clone, Copy)]
pub(crate) struct Neighbour {
    /// Its number in the window.
    pub(crate) cell: u32,
    /// What the step to it costs.
    pub(crate) cost: u64,
    /// Its place, counted from the window's first column and row.
    pub(crate) place: Cell,
}

/// A cell of a window that a search has labelled.
#[derive(Clone, Copy)]
pub(crate) struct Reached {
    /// The cell's number in the window.
    pub(crate) cell: u32,
    /// Its label: what the least walk to it costs.
    pub(crate) cost: u64,
}
