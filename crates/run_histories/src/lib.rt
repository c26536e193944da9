//! The histories of rip-up and reroute over the track book of a design, and their laws: negotiated congestion
//! after McMurchie and Ebeling, "PathFinder", 1995.
#![tactic(auto)]

mod gate;
mod hands;
mod laws;
mod nets;
mod plans;

pub use gate::{Gate, OpenGate, Stop};
pub use hands::{HandLog, MARKER, Places, hands_of};
pub use laws::{attempts_are_turns, nothing_given_opens_all};
pub use nets::{open_nets, routed_nets};
pub use plans::{kind_of, plan_of};
