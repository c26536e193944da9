//! The rounds of rip-up and reroute in batches: the nets of a batch are planned side by side over one
//! state of the demand, and then claimed in order, so that the result is the same for every number of
//! threads.
#![tactic(auto)]

mod again;
mod asked;
mod basis;
mod batch;
mod claims;
mod given;
mod laws;
mod means;
mod rounds;
mod run;
mod seat;
mod seats;

pub use laws::there_is_one_batched_history;
pub use rounds::{Batched, batch_rounds};
