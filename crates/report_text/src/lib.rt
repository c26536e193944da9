//! The texts of a verdict on routes, and of the buffers of plans.
#![tactic(auto)]

mod buffer_text;
mod lines;
mod texts;

pub use buffer_text::{Buffered, buffers, buffers_of, polar_text, put_planned};
pub use texts::{report, unjoined};
