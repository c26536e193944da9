//! Numbers of which one gains.
ghost use Rattle.std.specs.Prelude.{◌≡◌, ◌+◌, ◌^◌, ◌<◌, length, slice_index};
ghost use Rattle.cut_bounds.specs.TileWires.{gained};

/// Adds to the number at a place.
#[inline(always)]
pub(crate) fn gain(numbers: &mut Vec<u64>, at: usize, more: u64)
    requires at { at < length numbers.old.items }
    requires room { slice_index numbers.old.items at + more < 2 ^ 64 }
    ensures { numbers.new.items ≡ gained numbers.old.items at more }
{
    numbers[at] += more;
}
