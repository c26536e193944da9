//! The nets that the boxes of a side part.
ghost use Rattle.std.specs.Prelude.{◌≡◌, ◌<◌, All, filter, length, map, IfOk};
ghost use Rattle.cut_bounds.specs.Boxes.{box_number, is_parted_on, IsOnChip, lies_in_one};
ghost use Rattle.cut_bounds.specs.NetTiles.{AreWhole, placed_in};

use crate::axis::Tile;
use crate::boxes::Boxes;
use crate::net_tiles::NetTiles;
use std::alloc::{AllocError, Global};

impl NetTiles {
    /// Those of the nets that no box of a side holds. The others need nothing of boxes of this side or of
    /// twice the side, and so on. The only error is want of memory.
    pub(crate) fn parted(&self, alloc: Global, boxes: Boxes) -> Result<NetTiles, AllocError>
        requires whole { AreWhole self.now }
        requires within { All (λ net. All (IsOnChip boxes.shape) net.tiles) (placed_in self.now) }
        requires some { All (λ net. 0 < length net.tiles) (placed_in self.now) }
        ensures nets { IfOk result (λ parted.
            placed_in parted ≡ filter (is_parted_on boxes.shape boxes.level) (placed_in self.now)) }
        ensures whole { IfOk result AreWhole }
    {
        let mut parted = NetTiles {
            net_needs: Vec::with_capacity(alloc, self.net_needs.len())?,
            tiles: Vec::with_capacity(alloc, self.tiles.len())?,
        };
        let mut rest = self.tiles.as_slice();
        for net_need in &self.net_needs {
            let (tiles, others) = rest.split_at(net_need.pins as usize);
            rest = others;
            if boxes.hold_in_one(tiles) {
                continue;
            }
            parted.net_needs.push(*net_need)?;
            parted.tiles.extend_from_slice(tiles)?;
        }
        Ok(parted)
    }
}

impl Boxes {
    /// Whether some tiles all lie in one box.
    fn hold_in_one(self, tiles: &[Tile]) -> bool
        requires some { 0 < length tiles.now }
        requires within { All (IsOnChip self.shape) tiles.now }
        ensures { result ≡ lies_in_one (map (box_number self.shape self.level) tiles.now) }
    {
        let first = self.number(tiles[0]);
        for tile in tiles {
            if self.number(*tile) != first {
                return false;
            }
        }
        true
    }
}
