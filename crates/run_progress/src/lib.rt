//! What a run tells on a terminal on its way: one line, rewritten as the rounds go on, and taken away before
//! the first byte of what the run writes. Nothing here is promised; no clause of a run depends on it.
#![tactic(auto)]

mod line;
mod progress;
mod writer;

pub use progress::Progress;
pub use writer::Below;
