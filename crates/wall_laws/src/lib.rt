//! Laws of walls: what no edge sets that join the nets of a design can be below.
#![tactic(auto)]

mod law;

pub use law::{overflow_is_at_least, usable_wirelength_is_at_least, wirelength_is_at_least};
