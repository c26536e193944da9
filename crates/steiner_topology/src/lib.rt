//! Topologies of nets: how the tiles of a net's pins hang together, with points of their own
//! where branches can share a way.
#![tactic(auto)]

mod branch;
mod build;
mod children;
mod point;
mod prim;
mod room;
mod tile;
mod tree;

pub use build::topology;
pub use point::{Join, Point, Tile};
pub use room::TopologyRoom;
pub use tree::Topology;
