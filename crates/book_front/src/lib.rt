//! A word that counts the entries of one history, and the seats of those who add to it. What a seat
//! knows of the history is true whatever other threads do meanwhile.
#![tactic(auto)]

mod front;
mod plays;
mod seat;
mod view;

pub use seat::{Front, PassSeat};
pub use view::{Ended, View};
