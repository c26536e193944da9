//! The few numbers that a made design follows from, and the ranges in which they have to lie.
ghost use Rattle.std.specs.Prelude.{◌≡◌};
ghost use Rattle.design_maker.specs.Ranges.{is_between, is_made};

use gr_base::{MOST_CELLS, MOST_LAYERS};

/// The fewest columns, rows and layers of a made design.
pub(crate) const LEAST_SIDE: u32 = 2;

/// The most columns, and the most rows, of a made design.
pub const MOST_SIDE: u32 = 2_048;

/// The most nets of a made design.
pub const MOST_MADE_NETS: u32 = 1_000_000;

/// What a design is made of.
#[derive(Clone, Copy, Debug, PartialEq, Eq)]
pub struct Made {
    /// Where the draws start: other seeds give other nets.
    pub seed: u64,
    /// How many columns the grid has, from 2 to 2,048.
    pub columns: u32,
    /// How many rows the grid has, from 2 to 2,048.
    pub rows: u32,
    /// How many layers the grid has, from 2 to 16.
    pub layers: u32,
    /// How many nets there are, at most 1,000,000.
    pub nets: u32,
}

impl Made {
    /// Whether a design can be made of the numbers: each lies in its range, and the grid has at most
    /// 8,388,608 cells.
    pub fn is_in_range(self) -> bool
        ensures { result ≡ is_made self }
    {
        let cells = u128::from(self.columns) * u128::from(self.rows) * u128::from(self.layers);
        is_between(self.columns, LEAST_SIDE, MOST_SIDE)
            && is_between(self.rows, LEAST_SIDE, MOST_SIDE)
            && is_between(self.layers, LEAST_SIDE, MOST_LAYERS)
            && cells <= u128::from(MOST_CELLS)
            && self.nets <= MOST_MADE_NETS
    }
}

/// Whether a number lies in a range, both ends included.
fn is_between(n: u32, least: u32, most: u32) -> bool
    ensures { result ≡ is_between n least most }
{
    least <= n && n <= most
}
