//! The maximal straight runs of the edges of a net.
#![tactic(auto)]

mod lows;
mod runs;

pub use runs::{gather_runs, push_way};
