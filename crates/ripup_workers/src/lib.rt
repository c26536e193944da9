//! The rounds of rip-up and reroute by several threads over one shared book.
#![tactic(auto)]

mod asked;
mod coordinator;
mod foresight;
mod given;
mod ground;
mod members;
mod ready;
mod round;
mod rounds;
mod run;
mod team;
mod turn;
mod wish;
mod work;
mod worker;

pub use rounds::{Rounds, route_rounds};
pub use run_histories::{Gate, OpenGate, Stop};
