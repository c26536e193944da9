//! Walls by falling excess.
ghost use Rattle.std.specs.Prelude.{◌≡◌, OnOk};
ghost use Rattle.cut_bounds.specs.Measured.{ranked};
ghost use Rattle.cut_bounds.specs.Taken.{excess_of, has_more};

use crate::wall::MeasuredWall;
use std::alloc::AllocError;
use std::cmp::Reverse;

/// Sorts walls by falling excess; those of one excess stay as they stand. The only error is want of
/// memory.
pub(crate) fn rank(walls: &mut Vec<MeasuredWall>) -> Result<(), AllocError>
    ensures { OnOk result (walls.new.items ≡ ranked has_more walls.old.items) }
{
    walls.sort_by_key(|wall| Reverse(excess_of(wall)))?;
    Ok(())
}

/// By how much the nets need more than the wall holds.
fn excess_of(wall: &MeasuredWall) -> u64
    ensures { result ≡ excess_of wall.now }
{
    wall.needs.saturating_sub(wall.holds)
}
