//! What the nets need of the boxes of a side.
ghost use Rattle.std.specs.Prelude.{◌≡◌, ◌==◌, ℕ, ◌+◌, ◌<◌, ◌≤◌, ◌^◌, ◌∷◌, ◌++◌, [], true, false, All, List, length};
ghost use Rattle.std.specs.Prelude.{map, slice_index, sum_by, IfOk};
ghost use Rattle.wall_laws.specs.Walls.{is_parted};
ghost use Rattle.cut_bounds.specs.Boxes.{AreMarked, box_needs, box_number, boxes_on, is_parted_on};
ghost use Rattle.cut_bounds.specs.Boxes.{IsOnChip, lies_in_one};
ghost use Rattle.cut_bounds.specs.NetTiles.{AreWhole, placed_in};
ghost use Rattle.cut_bounds.specs.TileWires.{where_so};

use crate::axis::Tile;
use crate::boxes::Boxes;
use crate::gains::gain;
use crate::net_tiles::NetTiles;
use std::alloc::{AllocError, Global};

/// What the nets need of each box, and the last net that was counted in it, by a mark of its own.
#[derive(Drop)]
struct BoxNeeds {
    needs: Vec<u64>,
    marks: Vec<u32>,
}

/// What nets need of each box of a side, by number, none of which holds one of them. The only error is
/// want of memory.
pub(crate) fn needs_by_box(
    alloc: Global,
    nets: &NetTiles,
    boxes: Boxes,
) -> Result<Vec<u64>, AllocError>
    requires whole { AreWhole nets.now }
    requires within { All (λ net. All (IsOnChip boxes.shape) net.tiles) (placed_in nets.now) }
    requires parted { All (λ net. is_parted_on boxes.shape boxes.level net ≡ true) (placed_in nets.now) }
    requires few { sum_by (λ net. net.need) (placed_in nets.now) < 2 ^ 63 }
    requires few_nets { length nets.now.net_needs.items < 2 ^ 31 }
    ensures long { IfOk result (λ needs. length needs.items ≡ boxes_on boxes.shape boxes.level) }
    ensures needs { (n : ℕ) → n < boxes_on boxes.shape boxes.level → IfOk result (λ needs.
        slice_index needs.items n ≡ box_needs boxes.shape boxes.level n (placed_in nets.now)) }
{
    let mut found = BoxNeeds {
        needs: vec![in alloc; 0; boxes.count()]?,
        marks: vec![in alloc; 0; boxes.count()]?,
    };
    let mut rest = nets.tiles.as_slice();
    let mut mark = 0;
    for net_need in &nets.net_needs {
        let (tiles, others) = rest.split_at(net_need.pins as usize);
        mark += 1;
        found.add_net(boxes, tiles, net_need.need, mark);
        rest = others;
    }
    Ok(found.needs)
}

impl BoxNeeds {
    /// Adds a net to each box that parts it.
    fn add_net(&mut self, boxes: Boxes, tiles: &[Tile], need: u32, mark: u32)
        requires within { All (IsOnChip boxes.shape) tiles.now }
        requires parted { lies_in_one (map (box_number boxes.shape boxes.level) tiles.now) ≡ false }
        requires needs { length self.old.needs.items ≡ boxes_on boxes.shape boxes.level }
        requires marks { length self.old.marks.items ≡ boxes_on boxes.shape boxes.level }
        requires small { (n : ℕ) → slice_index self.old.needs.items n < 2 ^ 63 }
        requires fresh { (n : ℕ) → slice_index self.old.marks.items n < mark }
        ensures needs_long { length self.new.needs.items ≡ length self.old.needs.items }
        ensures marks_long { length self.new.marks.items ≡ length self.old.marks.items }
        ensures marks { (n : ℕ) → slice_index self.new.marks.items n ≤ mark }
        ensures needs { (n : ℕ) → n < boxes_on boxes.shape boxes.level →
            slice_index self.new.needs.items n ≡ slice_index self.old.needs.items n +
            where_so (is_parted (λ b. b == n) (map (box_number boxes.shape boxes.level) tiles.now)) need }
    {
        for tile in tiles {
            self.add_once(boxes.number(*tile), need, mark);
        }
    }

    /// Adds to a box, unless it has the mark.
    #[inline(always)]
    fn add_once(&mut self, at: usize, need: u32, mark: u32)
        requires needs { at < length self.old.needs.items }
        requires marks { at < length self.old.marks.items }
        requires room { slice_index self.old.needs.items at < 2 ^ 63 + 2 ^ 32 }
        requires fresh { (n : ℕ) → slice_index self.old.marks.items n ≤ mark }
        ensures needs_long { length self.new.needs.items ≡ length self.old.needs.items }
        ensures marks_long { length self.new.marks.items ≡ length self.old.marks.items }
        ensures marks { (numbers : List ℕ) (needs : List ℕ) →
            AreMarked numbers needs need mark self.old.needs.items self.old.marks.items →
            AreMarked (numbers ++ at ∷ []) needs need mark self.new.needs.items self.new.marks.items }
    {
        if self.marks[at] != mark {
            self.marks[at] = mark;
            gain(&mut self.needs, at, u64::from(need));
        }
    }
}
