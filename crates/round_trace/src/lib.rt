//! What each round of a history did, as a text.
#![tactic(auto)]

mod counting;
mod done;
mod trace;

pub use trace::trace_text;
