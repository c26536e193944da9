//! Copies bytes between slices of any lengths, for devices that hold their texts in memory.
ghost use Rattle.std.specs.Prelude.{◌≡◌, length, min, take};

/// Copies the first bytes, as many as fit and no more than `most`, and says how many.
pub(crate) fn copy_start(from: &[u8], to: &mut [u8], most: usize) -> usize
    ensures count { result ≡ min (length to.old) (min most (length from.now)) }
    ensures copied { take result to.new ≡ take result from.now }
{
    let count = to.len().min(most.min(from.len()));
    to[..count].copy_from_slice(&from[..count]);
    count
}
