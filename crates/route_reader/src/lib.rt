//! The reader of solutions: the routes that any router wrote for a design.
#![tactic(auto)]

mod gathering;
mod read;
mod segment;
mod solution;
mod spot;

pub use read::{SolutionError, read_solution};
pub use solution::Solution;
