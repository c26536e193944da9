//! The walks of flat trees: the first least walk of at most two bends between two tiles.
#![tactic(auto)]

mod crossing;
mod flat;
mod leg;
mod line;

pub use flat::pattern;
