//! Writes the routes of a design as the text of a solution.
#![tactic(auto)]

mod blocks;
mod edges;
mod error;
mod nets;
mod record;
mod runs;
mod text;
mod write;
mod write_by;

pub use error::WriteError;
pub use write::write_solution;
pub use write_by::write_solution_by;
