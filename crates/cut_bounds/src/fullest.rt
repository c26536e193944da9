//! The fullest walls.
ghost use Rattle.std.specs.Prelude.{◌≡◌, ◌≤◌, length, take, OnOk, IfOk};
ghost use Rattle.cut_bounds.specs.Fullest.{fullest_of, is_fuller, is_needed, most_told, place_among};
ghost use Rattle.cut_bounds.specs.Measured.{ranked_with};

use crate::wall::MeasuredWall;
use std::alloc::{AllocError, Global};

/// How many walls are told.
const MOST_TOLD: usize = 10;

/// The ten walls of the greatest share of what is needed in what is held, those that hold nothing
/// first. The only error is want of memory.
pub(crate) fn fullest_of(
    alloc: Global,
    walls: &[MeasuredWall],
) -> Result<Vec<MeasuredWall>, AllocError>
    ensures { IfOk result (λ fullest. fullest.items ≡ fullest_of walls.now) }
{
    let mut fullest = Vec::with_capacity(alloc, MOST_TOLD + 1)?;
    for wall in walls {
        if !is_needed(wall) {
            continue;
        }
        place(&mut fullest, *wall)?;
    }
    Ok(fullest)
}

/// Whether some net needs the wall.
fn is_needed(wall: &MeasuredWall) -> bool
    ensures { result ≡ is_needed wall.now }
{
    wall.needs > 0
}

/// Puts a wall in its place among the fullest. The only error is want of memory.
fn place(fullest: &mut Vec<MeasuredWall>, wall: MeasuredWall) -> Result<(), AllocError>
    ensures { OnOk result (fullest.new.items ≡ take most_told (ranked_with is_fuller wall fullest.old.items)) }
{
    let at = place_of(fullest, wall);
    fullest.insert(at, wall)?;
    fullest.truncate(MOST_TOLD);
    Ok(())
}

/// The place of the first wall that this one is fuller than, or behind them all.
fn place_of(fullest: &[MeasuredWall], wall: MeasuredWall) -> usize
    ensures place { result ≡ place_among wall fullest.now }
    ensures within { result ≤ length fullest.now }
{
    match fullest.iter().position(|other| is_fuller(wall, *other)) {
        Some(at) => at,
        None => fullest.len(),
    }
}

/// Whether a wall's share of what is needed in what is held is greater than another's.
fn is_fuller(a: MeasuredWall, b: MeasuredWall) -> bool
    ensures { result ≡ is_fuller a b }
{
    if a.holds == 0 && b.holds == 0 {
        a.needs > b.needs
    } else {
        u128::from(a.needs) * u128::from(b.holds) > u128::from(b.needs) * u128::from(a.holds)
    }
}
