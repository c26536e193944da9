//! Plans of nets over the loads of a design: pattern plans, by topology, flat walks and layers, and
//! maze plans, by least walks in a window.
#![tactic(auto)]

mod flat;
mod flat_costs;
mod join;
mod maze;
mod net_costs;
mod order;
mod pattern;
mod pin_tiles;
mod planner;
mod scarcity;
mod site_run;
mod window;

pub use maze::maze_plan;
pub use pattern::pattern_plan;
pub use planner::Planner;
pub use window::maze_window;
