//! The overfull boxes of a side.
ghost use Rattle.std.specs.Prelude.{◌≡◌, ◌*◌, ◌^◌, ◌<◌, ◌≤◌, ◌++◌, ◌&&◌, nat_lt, length, OnOk};
ghost use Rattle.gr_base.specs.Designs.{DesignView};
ghost use Rattle.cut_bounds.specs.Boxes.{boxes_on, IsOnChip};
ghost use Rattle.cut_bounds.specs.Candidates.{box_from, candidates_on, counts, is_repeat, AreMeasured};

use crate::axis::Tile;
use crate::boxes::Boxes;
use crate::wall::{MeasuredWall, TileBox, Wall};
use gr_base::Shape;
use std::alloc::AllocError;

/// Puts the overfull boxes of a side that count behind the others, by row and column. The only error is
/// want of memory.
pub(crate) fn push_overfull(
    found: &mut Vec<MeasuredWall>,
    boxes: Boxes,
    needs: &[u64],
    holds: &[u64],
) -> Result<(), AllocError>
    requires needs { length needs.now ≡ boxes_on boxes.shape boxes.level }
    requires holds { length holds.now ≡ boxes_on boxes.shape boxes.level }
    ensures { OnOk result ((d : DesignView) → d.frame.shape ≡ boxes.shape →
        AreMeasured d boxes.level needs.now holds.now →
        found.new.items ≡ found.old.items ++ candidates_on d boxes.level) }
{
    let mut place = Tile { x: 0, y: 0 };
    for number in 0..needs.len() {
        let area = boxes.area(place);
        place = place.next(boxes.across);
        let (needed, held) = (needs[number], holds[number]);
        if !boxes.has_candidate(area, needed, held) {
            continue;
        }
        found.push(MeasuredWall {
            wall: Wall::Box(area),
            needs: needed,
            holds: held,
        })?;
    }
    Ok(())
}

impl Boxes {
    /// The box at a place of the boxes' rows and columns.
    fn area(self, place: Tile) -> TileBox
        requires { IsOnChip self.shape (record { x = place.x * 2 ^ self.level; y = place.y * 2 ^ self.level }) }
        ensures { result ≡ box_from self.shape (2 ^ self.level) (place.x * 2 ^ self.level) (place.y * 2 ^ self.level) }
    {
        area_from(
            self.shape,
            1 << self.level,
            place.x << self.level,
            place.y << self.level,
        )
    }

    /// Whether a box counts of which so much is needed and which holds so much, and is overfull.
    fn has_candidate(self, area: TileBox, needs: u64, holds: u64) -> bool
        requires first { IsOnChip self.shape (record { x = area.x0; y = area.y0 }) }
        requires last { IsOnChip self.shape (record { x = area.x1; y = area.y1 }) }
        ensures { result ≡ (counts self.shape self.level area && nat_lt holds needs) }
    {
        if holds >= needs {
            return false;
        }
        self.counts(area)
    }

    /// Whether a box of this side counts: it spans neither all columns nor all rows, and isn't one of
    /// half the side too.
    fn counts(self, area: TileBox) -> bool
        requires first { IsOnChip self.shape (record { x = area.x0; y = area.y0 }) }
        requires last { IsOnChip self.shape (record { x = area.x1; y = area.y1 }) }
        ensures { result ≡ counts self.shape self.level area }
    {
        let spans_columns = area.x0 == 0 && area.x1 + 1 == self.shape.columns();
        let spans_rows = area.y0 == 0 && area.y1 + 1 == self.shape.rows();
        !spans_columns && !spans_rows && !self.is_repeat(area)
    }

    /// Whether the box of half the side from its first tile on is the same.
    fn is_repeat(self, area: TileBox) -> bool
        requires { IsOnChip self.shape (record { x = area.x0; y = area.y0 }) }
        ensures { result ≡ is_repeat self.shape self.level area }
    {
        if self.level == 0 {
            return false;
        }
        let half = area_from(self.shape, 1 << (self.level - 1), area.x0, area.y0);
        half.x1 == area.x1 && half.y1 == area.y1
    }
}

/// The box of a side from a first tile on, cut at the chip's side.
fn area_from(shape: Shape, side: u32, x0: u32, y0: u32) -> TileBox
    requires side { 0 < side }
    requires small { side ≤ 2 ^ 24 }
    requires tile { IsOnChip shape (record { x = x0; y = y0 }) }
    ensures { result ≡ box_from shape side x0 y0 }
{
    TileBox {
        x0,
        y0,
        x1: (x0 + side).min(shape.columns()) - 1,
        y1: (y0 + side).min(shape.rows()) - 1,
    }
}
