//! The router's commands, over any shelf and sinks.
#![tactic(auto)]

mod beginning;
mod booking;
mod kept;
mod laws;
mod means;
mod request;
mod routing;
mod rules;
mod top;
mod tracing;
mod trying;

pub use kept::Kept;
pub use laws::batches_decide;
pub use top::{Ended, run};
