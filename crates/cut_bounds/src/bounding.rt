//! What no router can do better on a design.
ghost use Rattle.std.specs.Prelude.{◌≡◌, ◌≤◌, ◌++◌, [], All, filter, fold, IfOk};
ghost use Rattle.gr_base.specs.Designs.{IsDesign};
ghost use Rattle.wall_laws.specs.Laws.{AreBounds};
ghost use Rattle.cut_bounds.specs.BoundsOf.{bounds_by, bounds_of};
ghost use Rattle.cut_bounds.specs.Candidates.{straight_cuts as cuts_of};
ghost use Rattle.cut_bounds.specs.Measured.{is_overfull, ranked};
ghost use Rattle.cut_bounds.specs.Places.{IsWallOf};
ghost use Rattle.cut_bounds.specs.Taken.{has_more, take_apart, taken_walls};

use crate::boxes_of::overfull_boxes;
use crate::figures::Bounds;
use crate::fullest::fullest_of;
use crate::kinds::{count_kinds, overfull, push_boxes, total_excess};
use crate::net_tiles::NetTiles;
use crate::ranked::rank;
use crate::straight::straight_cuts;
use crate::taken::take_walls;
use crate::tile_wires::TileWires;
use crate::wall::MeasuredWall;
use gr_base::{Design, Shape};
use span_bounds::{WireBounds, wire_bounds};
use std::alloc::{AllocError, Global};

/// The straight cuts of a design, and the walls that are taken.
#[derive(Drop)]
struct Walls {
    straight: Vec<MeasuredWall>,
    taken: Vec<MeasuredWall>,
}

/// The bounds of a design: figures that total overflow, wirelength and wirelength along usable edges are
/// at least, whatever edges the nets take that join their pins; how many walls of each kind show the
/// overflow; and the fullest walls. A via edge counts as `via_cost` wire edges, at most 1,000. The only
/// error is want of memory.
pub fn bounds_of(alloc: Global, design: &Design, via_cost: u32) -> Result<Bounds, AllocError>
    requires { via_cost ≤ 1000 }
    ensures value { IfOk result (λ bounds. bounds ≡ bounds_of design.now via_cost) }
    ensures law { IfOk result (λ bounds.
        AreBounds design.now via_cost bounds.overflow bounds.wirelength bounds.usable_wirelength) }
{
    let walls = walls_of(alloc, design)?;
    let wire = wire_bounds(alloc, design, via_cost)?;
    let bounds = bounds_shown(alloc, walls, wire)?;
    Ok(bounds)
}

/// The bounds that walls show, beside those of wirelength. The only error is want of memory.
fn bounds_shown(alloc: Global, walls: Walls, wire: WireBounds) -> Result<Bounds, AllocError>
    ensures { IfOk result (λ bounds. bounds ≡
        bounds_by wire.wirelength wire.usable walls.straight.items walls.taken.items) }
{
    let Walls { straight, taken } = walls;
    let counts = count_kinds(&taken);
    let overflow = total_excess(&taken);
    let mut told = straight;
    push_boxes(&mut told, &taken)?;
    Ok(Bounds {
        overflow,
        wirelength: wire.wirelength,
        usable_wirelength: wire.usable,
        columns: counts.columns,
        rows: counts.rows,
        boxes: counts.boxes,
        fullest: fullest_of(alloc, &told)?,
    })
}

/// The straight cuts of a design, and the walls that are taken. The only error is want of memory.
fn walls_of(alloc: Global, design: &Design) -> Result<Walls, AllocError>
    ensures straight { IfOk result (λ walls. walls.straight.items ≡ cuts_of design.now) }
    ensures taken { IfOk result (λ walls. walls.taken.items ≡ taken_walls design.now) }
    ensures design { IfOk result (λ walls. IsDesign design.now) }
{
    let shape = design.frame().shape;
    let nets = NetTiles::of(alloc, design)?;
    let wires = TileWires::of(alloc, design)?;
    let straight = straight_cuts(alloc, design, &nets, &wires)?;
    let boxes = overfull_boxes(alloc, design, nets, &wires)?;
    let taken = taken_of(alloc, shape, &straight, boxes)?;
    Ok(Walls { straight, taken })
}

/// Of the overfull straight cuts as they stand, and then the boxes by falling excess, those that share no
/// edge with one before. The only error is want of memory.
fn taken_of(
    alloc: Global,
    shape: Shape,
    straight: &[MeasuredWall],
    boxes: Vec<MeasuredWall>,
) -> Result<Vec<MeasuredWall>, AllocError>
    requires straight { All (λ m. IsWallOf shape m.wall) straight.now }
    requires boxes { All (λ m. IsWallOf shape m.wall) boxes.items }
    ensures { IfOk result (λ taken. taken.items ≡
        fold (take_apart shape) [] (filter is_overfull straight.now ++ ranked has_more boxes.items)) }
{
    let mut boxes = boxes;
    rank(&mut boxes)?;
    let mut order = overfull(alloc, straight)?;
    order.extend_from_slice(&boxes)?;
    let taken = take_walls(alloc, shape, &order)?;
    Ok(taken)
}
