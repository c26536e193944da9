//! Ends of shared books.
ghost use Rattle.std.specs.Prelude.{◌≡◌, true, IfOk};
ghost use Rattle.track_book.specs.Passes.{AreAll};

use std::alloc::AllocError;
use track_book::{BookName, ClosedBook, Pass, TrackBook};

/// Whether these are so many passes, by number.
fn are_by_number<N: BookName>(passes: &Vec<Pass<N>>, count: u32) -> bool
    ensures { result ≡ true → AreAll count passes.now.items }
{
    if passes.len() != count as usize {
        return false;
    }
    for number in 0..count {
        if passes[number as usize].number() != number {
            return false;
        }
    }
    true
}

/// Ends a book of so many passes. The error is want of memory, or that the passes aren't by number.
pub(crate) fn closed<N: BookName>(
    book: TrackBook<N>,
    passes: Vec<Pass<N>>,
    count: u32,
) -> Result<ClosedBook, AllocError>
    requires { N.passes ≡ count }
    ensures { IfOk result (λ closed. closed.state.capacity ≡ N.capacity) }
{
    if !are_by_number(&passes, count) {
        return Err(AllocError);
    }
    let Ok(closed) = book.close(passes) else {
        return Err(AllocError);
    };
    Ok(closed)
}
