//! The straight cuts, with what is needed of them and what they hold.
ghost use Rattle.std.specs.Prelude.{◌≡◌, ◌^◌, ◌<◌, ◌++◌, All, length, sum_by, IfOk, OnOk};
ghost use Rattle.cut_bounds.specs.Candidates.{straight_cuts};
ghost use Rattle.cut_bounds.specs.Cuts.{AreWithin, lines_of};
ghost use Rattle.cut_bounds.specs.NetTiles.{AreWhole, placed_in, placed_nets};
ghost use Rattle.cut_bounds.specs.Straight.{cuts_along, wall_behind};
ghost use Rattle.cut_bounds.specs.TileWires.{AreTileWires, held_by, sum_below, tiles_of};
ghost use Rattle.cut_bounds.specs.declared.axis.Axis.TheVariants.{Columns, Rows};

use crate::axis::Axis;
use crate::cuts::{holds_by_line, lines, needs_by_line};
use crate::net_tiles::NetTiles;
use crate::tile_wires::TileWires;
use crate::wall::{MeasuredWall, Wall};
use gr_base::Design;
use std::alloc::{AllocError, Global};

/// The straight cuts by column and then by row. The only error is want of memory.
pub(crate) fn straight_cuts(
    alloc: Global,
    design: &Design,
    nets: &NetTiles,
    wires: &TileWires,
) -> Result<Vec<MeasuredWall>, AllocError>
    requires nets { placed_in nets.now ≡ placed_nets design.now }
    requires whole { AreWhole nets.now }
    requires wires { AreTileWires design.now wires.now }
    requires some { All (λ net. 0 < length net.tiles) (placed_in nets.now) }
    requires columns { All (λ net. AreWithin Columns design.now.frame.shape.columns net.tiles) (placed_in nets.now) }
    requires rows { All (λ net. AreWithin Rows design.now.frame.shape.rows net.tiles) (placed_in nets.now) }
    requires few_needs { sum_by (λ net. net.need) (placed_in nets.now) < 2 ^ 63 }
    requires few_holds { sum_below (tiles_of design.now.frame.shape) (held_by wires.now) < 2 ^ 62 }
    ensures { IfOk result (λ walls. walls.items ≡ straight_cuts design.now) }
{
    let mut walls = Vec::new(alloc);
    push_cuts(&mut walls, alloc, design, nets, wires, Axis::Columns)?;
    push_cuts(&mut walls, alloc, design, nets, wires, Axis::Rows)?;
    Ok(walls)
}

/// Puts the cuts along an axis behind the others. The only error is want of memory.
fn push_cuts(
    walls: &mut Vec<MeasuredWall>,
    alloc: Global,
    design: &Design,
    nets: &NetTiles,
    wires: &TileWires,
    axis: Axis,
) -> Result<(), AllocError>
    requires nets { placed_in nets.now ≡ placed_nets design.now }
    requires whole { AreWhole nets.now }
    requires wires { AreTileWires design.now wires.now }
    requires some { All (λ net. 0 < length net.tiles) (placed_in nets.now) }
    requires within { All (λ net. AreWithin axis (lines_of design.now.frame.shape axis) net.tiles)
        (placed_in nets.now) }
    requires few_needs { sum_by (λ net. net.need) (placed_in nets.now) < 2 ^ 63 }
    requires few_holds { sum_below (tiles_of design.now.frame.shape) (held_by wires.now) < 2 ^ 62 }
    ensures { OnOk result (walls.new.items ≡ walls.old.items ++ cuts_along design.now axis) }
{
    let shape = design.frame().shape;
    let count = lines(shape, axis);
    let needs = needs_by_line(alloc, nets, axis, count)?;
    let holds = holds_by_line(alloc, wires, shape, axis)?;
    for line in 0..count.saturating_sub(1) {
        walls.push(MeasuredWall {
            wall: wall_behind(axis, line),
            needs: needs[line as usize],
            holds: holds[line as usize],
        })?;
    }
    Ok(())
}

/// The cut behind a column or a row.
fn wall_behind(axis: Axis, line: u32) -> Wall
    ensures { result ≡ wall_behind axis line }
{
    match axis {
        Axis::Columns => Wall::Column(line),
        Axis::Rows => Wall::Row(line),
    }
}
