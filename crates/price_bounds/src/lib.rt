//! What weights on wire edges prove that no routes of a design can be below: in overflow, in wirelength
//! without overflow, and in both together.
#![tactic(auto)]

mod bounding;
mod costs;
mod cuts;
mod figure;
mod held;
mod seats;
mod steps;
mod text;

pub use bounding::{Floor, PriceBounds, price_bounds};
pub use text::prices_text;
