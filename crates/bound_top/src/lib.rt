//! The command of `grbound`, over devices: what no router can do better on a design.
#![tactic(auto)]

mod bounding;
mod top;

pub use top::bound;
