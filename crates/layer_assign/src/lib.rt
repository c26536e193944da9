//! The layers of a flat tree's edges: the first assignment of least cost, and the tree raised from
//! an assignment.
#![tactic(auto)]

mod choices;
mod climbs;
mod columns;
mod first_least;
mod layers;
mod limbs;
mod raised;
mod room;
mod runs;
mod span;
mod spans;
mod tables;
mod tiles;

pub use first_least::assign;
pub use layers::Layers;
pub use raised::raise;
pub use room::LayerRoom;
