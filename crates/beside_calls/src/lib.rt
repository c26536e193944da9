//! Calls of one function at the places of a slice, side by side, by threads that one thread makes, and
//! the blocks that such calls take.
#![tactic(auto)]

mod beside;
mod blocks;
mod run;

pub use beside::for_each_beside;
pub use blocks::block_start;
