//! Laws of design, library and solution texts.
#![tactic(auto)]

mod law;
mod library_law;
mod solution_law;

pub use law::first_faults_are_decided_early;
pub use library_law::first_library_faults_are_decided_early;
pub use solution_law::first_solution_faults_are_decided_early;
