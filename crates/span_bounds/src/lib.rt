//! What the pins of a design's nets ask for in wire and vias, which no wirelength is below.
#![tactic(auto)]

mod net_spans;
mod numbers;
mod sums;

pub use sums::{WireBounds, wire_bounds};
