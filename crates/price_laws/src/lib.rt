//! Laws of prices on edges: what no edge sets that join the nets of a design can be below, by what
//! each net pays at least.
#![tactic(auto)]

mod law;

pub use law::{paying_raises_the_bound, prices_bound_routes, what_is_paid_is_a_bound};
