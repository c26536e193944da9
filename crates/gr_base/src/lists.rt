//! Lists that are filled anew.
ghost use Rattle.std.specs.Prelude.{◌≡◌, OnOk, replicate};

use std::alloc::AllocError;

/// Puts so many equal items in the place of those that a list held. It keeps the list's memory. The only
/// error is want of memory.
pub fn refill<T: Copy>(list: &mut Vec<T>, item: T, count: usize) -> Result<(), AllocError>
    ensures { OnOk result (list.new.items ≡ replicate count item) }
{
    list.clear();
    list.resize(count, item)
}
