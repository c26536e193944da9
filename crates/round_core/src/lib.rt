//! The pure machine of the rounds, for every interleaving of its workers' steps.
#![tactic(auto)]

mod machine;
mod moves;
mod phases;
mod steps;
mod world;

pub use steps::{Phase, Step, StepRefused};
pub use world::World;
