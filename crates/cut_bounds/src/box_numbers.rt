//! The numbers of boxes.
ghost use Rattle.std.specs.Prelude.{◌≡◌, ◌≤◌, ◌<◌, ◌≢◌};
ghost use Rattle.gr_base.specs.Limits.{most_cells};
ghost use Rattle.cut_bounds.specs.Boxes.{box_number, boxes_on, IsOnChip};

use crate::axis::Tile;
use crate::boxes::Boxes;
use gr_base::Shape;

impl Boxes {
    /// The boxes of side 2^level.
    pub(crate) fn of(shape: Shape, level: u32) -> Boxes
        requires { level < 24 }
        ensures shape { result.shape ≡ shape }
        ensures level { result.level ≡ level }
    {
        let across = ((shape.columns() - 1) >> level) + 1;
        Boxes {
            shape,
            level,
            across,
        }
    }

    /// How many boxes there are.
    pub(crate) fn count(self) -> usize
        ensures count { result ≡ boxes_on self.shape self.level }
        ensures most { result ≤ most_cells }
    {
        let up = ((self.shape.rows() - 1) >> self.level) + 1;
        self.across as usize * up as usize
    }

    /// The number of the box that a tile lies in.
    #[inline(always)]
    pub(crate) fn number(self, tile: Tile) -> usize
        requires { IsOnChip self.shape tile }
        ensures number { result ≡ box_number self.shape self.level tile }
        ensures inside { result < boxes_on self.shape self.level }
    {
        (tile.y >> self.level) as usize * self.across as usize + (tile.x >> self.level) as usize
    }
}
