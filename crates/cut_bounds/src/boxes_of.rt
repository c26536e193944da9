//! The overfull boxes of all sides.
ghost use Rattle.std.specs.Prelude.{◌≡◌, ◌*◌, ◌%◌, ◌^◌, ◌<◌, ◌++◌, true, nat_lt, All, IfOk, OnOk};
ghost use Rattle.gr_base.specs.Designs.{IsDesign};
ghost use Rattle.cut_bounds.specs.Boxes.{is_parted_on};
ghost use Rattle.cut_bounds.specs.Candidates.{candidates, candidates_on, AreLeft};
ghost use Rattle.cut_bounds.specs.NetTiles.{placed_in, placed_nets, AreWhole};
ghost use Rattle.cut_bounds.specs.TileWires.{AreTileWires};

use crate::box_holds::holds_by_box;
use crate::box_needs::needs_by_box;
use crate::boxes::Boxes;
use crate::candidates::push_overfull;
use crate::net_tiles::NetTiles;
use crate::tile_wires::TileWires;
use crate::wall::MeasuredWall;
use gr_base::Design;
use std::alloc::{AllocError, Global};

/// A number above the level of each side that a chip's boxes can have.
const LEVELS: u32 = 24;

/// The overfull boxes that count, by side, row and column. The only error is want of memory.
pub(crate) fn overfull_boxes(
    alloc: Global,
    design: &Design,
    nets: NetTiles,
    wires: &TileWires,
) -> Result<Vec<MeasuredWall>, AllocError>
    requires placed { placed_in nets ≡ placed_nets design.now }
    requires whole { AreWhole nets }
    requires wires { AreTileWires design.now wires.now }
    ensures { IfOk result (λ found. found.items ≡ candidates design.now) }
{
    let shape = design.frame().shape;
    let longer = shape.columns().max(shape.rows());
    let mut found = Vec::new(alloc);
    let mut left = nets;
    for level in 0..LEVELS {
        if !is_below(level, longer) {
            continue;
        }
        let boxes = Boxes::of(shape, level);
        let fewer = left.parted(alloc, boxes)?;
        push_side(alloc, &mut found, design, &fewer, wires, boxes)?;
        left = fewer;
    }
    Ok(found)
}

/// Whether the side of a level is below a number.
fn is_below(level: u32, most: u32) -> bool
    requires { level < 24 }
    ensures { result ≡ nat_lt (1 * 2 ^ level % 2 ^ 32) most }
{
    1 << level < most
}

/// Puts the overfull boxes of a side behind the others. Of the nets those are left that no box of the
/// side holds.
fn push_side(
    alloc: Global,
    found: &mut Vec<MeasuredWall>,
    design: &Design,
    nets: &NetTiles,
    wires: &TileWires,
    boxes: Boxes,
) -> Result<(), AllocError>
    requires design { IsDesign design.now }
    requires shape { boxes.shape ≡ design.now.frame.shape }
    requires left { AreLeft design.now boxes.level nets.now }
    requires parted { All (λ net. is_parted_on boxes.shape boxes.level net ≡ true) (placed_in nets.now) }
    requires wires { AreTileWires design.now wires.now }
    ensures { OnOk result (found.new.items ≡ found.old.items ++ candidates_on design.now boxes.level) }
{
    let needs = needs_by_box(alloc, nets, boxes)?;
    let holds = holds_by_box(alloc, wires, boxes)?;
    push_overfull(found, boxes, &needs, &holds)?;
    Ok(())
}
