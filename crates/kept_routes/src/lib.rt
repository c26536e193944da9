//! The nets of a design that can be kept as a solution routes them, and their trees.
#![tactic(auto)]

mod cut;
mod keeper;
mod kept;
mod usable;
mod wanted;

pub use kept::kept_routes;
