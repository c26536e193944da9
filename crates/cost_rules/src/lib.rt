//! What a wire edge costs a net, when the rounds of rerouting stop, and the costs of a whole grid
//! as planners see them.
#![tactic(auto)]

mod costs;
mod formula;
mod look;
mod rule;
mod rules;
mod sight;
mod site;
mod watcher;

pub use costs::Costs;
pub use formula::{MOST_COST, VIA_PRICE, first_cost, flat_cost, near_cost, reach, steep_cost};
pub use look::{goal, never, still};
pub use rule::CostRule;
pub use rules::Rules;
pub use sight::{Going, Sight, Watch};
pub use site::{Formula, Site};
pub use watcher::Watcher;
