//! The best placement of a net's buffers, by van Ginneken's method.
#![tactic(auto)]

mod hanging;
mod laws;
mod lists;
mod loaded;
mod net_planner;
mod nets;
mod placing;
mod planner;
mod planning;
mod routed_nets;

pub use laws::{candidates_above_nodes, candidates_at_nodes, picked_is_best};
pub use loaded::Loaded;
pub use net_planner::NetPlanner;
pub use nets::{net_plan, plan_all, plan_all_by, routed_tree};
pub use placing::plan_of;
pub use planner::Planner;
pub use routed_nets::RoutedNets;
