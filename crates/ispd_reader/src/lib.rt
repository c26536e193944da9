//! Reads a design text: the grid, the capacities, the nets and the adjustments.
#![tactic(auto)]

mod adjustments;
mod fault;
mod header;
mod nets;
mod read;
mod steps;

pub use fault::{DesignError, DesignFault};
pub use read::read_design;
