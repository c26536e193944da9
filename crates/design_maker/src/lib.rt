//! Makes designs out of a few numbers, so that a router can be tried without a design's file.
#![tactic(auto)]

mod draws;
mod head;
mod made;
mod middles;
mod nets;
mod text;
mod write;

pub use made::{MOST_MADE_NETS, MOST_SIDE, Made};
pub use text::made_text;
pub use write::{Count, make};
