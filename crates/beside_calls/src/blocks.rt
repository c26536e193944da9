//! Blocks of a count of things, which calls side by side take one each.
ghost use Rattle.std.specs.Prelude.{◌≡◌};
ghost use Rattle.beside_calls.specs.Blocks.{block_start as start_of};

/// Where a block begins of so many things, where the first block begins at `from` and each has `size` of
/// them: past the last one the blocks are empty.
pub fn block_start(count: u32, from: u32, size: u32, at: usize) -> u32
    ensures { result ≡ start_of count from size at }
{
    let start = at
        .saturating_mul(size as usize)
        .saturating_add(from as usize);
    start.min(count as usize) as u32
}
