//! Nets shared out to threads. Each hand has a deque of its own nets, and takes from it first and
//! then from the others' deques. What was shared is what was taken and the rest, each net as often as
//! it was shared, whatever the threads do meanwhile.
#![tactic(auto)]

mod account;
mod dealing;
mod deque;
mod ending;
mod hand;
mod shared;

pub use dealing::share;
pub use ending::ShareEnd;
pub use hand::Hand;
pub use shared::Share;
