//! Tiles, and the axes along which they lie.
ghost use Rattle.std.specs.Prelude.{◌≡◌, ℕ, ◌+◌, ◌^◌, ◌<◌};
ghost use Rattle.cut_bounds.specs.Cuts.{along, tile_at};

/// A tile of the chip: its column and its row, which count from 0.
#[derive(Clone, Copy, Debug, PartialEq, Eq)]
pub(crate) struct Tile {
    pub x: u32,
    pub y: u32,
}

/// The axis that straight cuts part: columns from columns, or rows from rows.
#[derive(Clone, Copy, Debug, PartialEq, Eq)]
pub(crate) enum Axis {
    Columns,
    Rows,
}

impl Tile {
    /// The tile's column or row.
    pub(crate) fn along(self, axis: Axis) -> u32
        ensures { result ≡ along axis self }
    {
        match axis {
            Axis::Columns => self.x,
            Axis::Rows => self.y,
        }
    }

    /// The tile that follows by row and then by column.
    pub(crate) fn next(self, columns: u32) -> Tile
        requires x { self.x < columns }
        requires y { self.y < 2 ^ 31 }
        ensures { (number : ℕ) → self ≡ tile_at columns number → result ≡ tile_at columns (number + 1) }
    {
        if self.x + 1 < columns {
            return Tile {
                x: self.x + 1,
                y: self.y,
            };
        }
        Tile {
            x: 0,
            y: self.y + 1,
        }
    }
}
