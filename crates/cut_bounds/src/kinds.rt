//! Sums and counts of walls, and those of a kind.
ghost use Rattle.std.specs.Prelude.{◌≡◌, ◌++◌, count_by, filter, sum_by, IfOk, OnOk};
ghost use Rattle.cut_bounds.specs.BoundsOf.{is_box, is_box_wall, is_column, is_column_wall, is_row, is_row_wall};
ghost use Rattle.cut_bounds.specs.Measured.{is_overfull};
ghost use Rattle.cut_bounds.specs.Taken.{excess_of};

use crate::wall::{MeasuredWall, Wall};
use std::alloc::{AllocError, Global};

/// How many walls of each kind there are.
#[derive(Clone, Copy, Debug)]
pub(crate) struct Counts {
    pub columns: u64,
    pub rows: u64,
    pub boxes: u64,
}

/// How many of some walls are cuts behind columns, cuts behind rows, and boxes.
pub(crate) fn count_kinds(walls: &[MeasuredWall]) -> Counts
    ensures columns { result.columns ≡ count_by is_column walls.now }
    ensures rows { result.rows ≡ count_by is_row walls.now }
    ensures boxes { result.boxes ≡ count_by is_box walls.now }
{
    let mut columns = 0;
    let mut rows = 0;
    let mut boxes = 0;
    for wall in walls {
        columns += u64::from(has_column(wall.wall));
        rows += u64::from(has_row(wall.wall));
        boxes += u64::from(has_box(wall.wall));
    }
    Counts {
        columns,
        rows,
        boxes,
    }
}

/// By how much more is needed than the walls hold, together.
pub(crate) fn total_excess(walls: &[MeasuredWall]) -> u128
    ensures { result ≡ sum_by excess_of walls.now }
{
    let mut total = 0;
    for wall in walls {
        total += u128::from(wall.needs.saturating_sub(wall.holds));
    }
    total
}

/// The overfull ones of some walls. The only error is want of memory.
pub(crate) fn overfull(
    alloc: Global,
    walls: &[MeasuredWall],
) -> Result<Vec<MeasuredWall>, AllocError>
    ensures { IfOk result (λ found. found.items ≡ filter is_overfull walls.now) }
{
    let mut found = Vec::new(alloc);
    for wall in walls {
        if wall.needs > wall.holds {
            found.push(*wall)?;
        }
    }
    Ok(found)
}

/// Puts the boxes of some walls behind others. The only error is want of memory.
pub(crate) fn push_boxes(
    found: &mut Vec<MeasuredWall>,
    walls: &[MeasuredWall],
) -> Result<(), AllocError>
    ensures { OnOk result (found.new.items ≡ found.old.items ++ filter is_box walls.now) }
{
    for wall in walls {
        if has_box(wall.wall) {
            found.push(*wall)?;
        }
    }
    Ok(())
}

fn has_column(wall: Wall) -> bool
    ensures { result ≡ is_column_wall wall }
{
    matches!(wall, Wall::Column(_))
}

fn has_row(wall: Wall) -> bool
    ensures { result ≡ is_row_wall wall }
{
    matches!(wall, Wall::Row(_))
}

fn has_box(wall: Wall) -> bool
    ensures { result ≡ is_box_wall wall }
{
    matches!(wall, Wall::Box(_))
}
