//! Scales of a window.
ghost use Rattle.maze_route.specs.Positions.{most_position, AreUpTo};

use std::alloc::Global;

/// A position for each column and each row of a window, counted from its first ones: no step in the
/// window costs less than the positions of its ends differ by.
#[derive(Debug, Drop)]
pub(crate) struct Scales {
    pub(crate) columns: Vec<u64>,
    pub(crate) rows: Vec<u64>,
    pub(crate) ghost near_columns: { AreUpTo most_position columns.items },
    pub(crate) ghost near_rows: { AreUpTo most_position rows.items },
}

impl Scales {
    /// Scales of no columns and rows. They take no memory.
    pub(crate) fn new(alloc: Global) -> Scales {
        Scales {
            columns: Vec::new(alloc),
            rows: Vec::new(alloc),
        }
    }
}
