//! The form that the programs' commands have: what one reads and leaves, and how its end is told.
#![tactic(auto)]

mod left;
mod line;
mod opening;
mod stop;

pub use left::{Left, Spent};
pub use opening::{open_design, open_library, open_solution};
pub use stop::{Outcome, Stop, finish};
