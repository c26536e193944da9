//! The capacity of a design's wire edges, and what the trees that are in take of it.
#![tactic(auto)]

mod calm;
mod capacity;
mod loads;
mod numbers;
mod overfull;
mod sums;
mod wires;

pub use capacity::Capacity;
pub use loads::Loads;
pub use overfull::Overfull;
pub use sums::loads_are_sums;
