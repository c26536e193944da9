//! The required times of routed nets, by Elmore's delay in their trees.
#![tactic(auto)]

mod delay;
mod laws;
mod loading;
mod node_load;
mod placement;
mod plans;
mod seen;
mod times;
mod wants;

pub use delay::delay_to;
pub use laws::{required_from_leaves, seen_from_leaves};
pub use loading::Loading;
pub use placement::Placement;
pub use plans::{Plan, Plans};
pub use seen::Seen;
pub use times::required;
pub use wants::Wants;
