//! The best placement of a net's buffers where some invert the signal, by van Ginneken's method: two
//! lists of candidates at each point of a tree, for the plain and for the inverted signal there.
#![tactic(auto)]

mod error;
mod hanging;
mod laws;
mod lists;
mod nets;
mod offers;
mod planner;
mod planning;
mod side;
mod sides;

pub use error::PolarError;
pub use laws::{candidates_for_signals, picked_legal_is_best};
pub use nets::plan_all_polar;
pub use planner::PolarPlanner;
