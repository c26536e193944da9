//! Coordinates of the chip and tiles of the grid along one axis.
ghost use Rattle.std.specs.Prelude.{◌≡◌, ℕ, ◌*◌, ◌-◌, ◌^◌, ◌<◌, ◌≤◌, pos, negsuc, ◌≤ℤ◌};
ghost use Rattle.gr_base.specs.Limits.{most_cells, most_tile, most_lower};
ghost use Rattle.gr_base.specs.Designs.{middle as middle_of, tile_of};

/// The tile of a coordinate, of `count` tiles of one size from the lower border on.
pub(crate) fn tile_at(lower: i64, size: u32, count: u32, at: i64) -> Option<u32>
    requires size { 0 < size }
    requires count { 0 < count }
    requires few { count ≤ most_cells }
    requires small { size ≤ most_tile }
    ensures { result ≡ tile_of lower size count at }
{
    if at < lower {
        return None;
    }
    let offset = at.abs_diff(lower);
    if offset > u64::from(count) * u64::from(size) {
        return None;
    }
    let tile = offset / u64::from(size);
    Some(tile.min(u64::from(count - 1)) as u32)
}

/// The middle of a tile, with the half rounded down.
pub(crate) fn middle(lower: i64, size: u32, tile: u32) -> i64
    requires tile { tile < most_cells }
    requires small { size ≤ most_tile }
    requires low { negsuc (most_lower - 1) ≤ℤ lower }
    requires high { lower ≤ℤ pos most_lower }
    ensures { result ≡ middle_of lower size tile }
{
    lower + (u64::from(tile) * u64::from(size) + u64::from(size / 2)) as i64
}
