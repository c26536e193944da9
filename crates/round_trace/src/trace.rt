//! The text of all rounds.
ghost use Rattle.std.specs.Prelude.{◌≡◌, IfOk};
ghost use Rattle.round_trace.specs.Counts.{IsCountOf};
ghost use Rattle.round_trace.specs.Traces.{trace_text};

use crate::counting::RoundsSoFar;
use book_state::History;
use gr_text::Text;
use std::alloc::{AllocError, Global};

/// What each round of a history did: a line `rounds` with the number of its last round, and for each
/// round, from 0 on, a line with the total overflow that its mark answers, in units of width, and how many
/// of its claims were answered Claimed, and how many Full. The only error is want of memory.
pub fn trace_text(alloc: Global, history: &History) -> Result<Text, AllocError>
    ensures { IfOk result (λ text. text ≡ trace_text history.now) }
{
    let count = count_of(alloc, history)?;
    let mut text = Text::new(alloc);
    text.put_number_line(b"rounds", u128::from(count.marks.saturating_sub(1)))?;
    text.put(count.lines.bytes())?;
    Ok(text)
}

/// What a history says of its rounds. The only error is want of memory.
fn count_of(alloc: Global, history: &History) -> Result<RoundsSoFar, AllocError>
    ensures { IfOk result (IsCountOf history.now) }
{
    let mut count = RoundsSoFar::new(alloc);
    for place in 0..history.len() {
        count.take(history.entry(place))?;
    }
    Ok(count)
}
