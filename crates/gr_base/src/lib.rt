//! The grid of a global router, the design that is routed on it, and the trees that route its nets.
#![tactic(auto)]

mod cells;
mod chip;
mod design;
mod edges;
mod frame;
mod grid;
mod ids;
mod limits;
mod lists;
mod name;
mod node_index;
mod routes;
mod tree;

pub use cells::Cells;
pub use design::{Design, NetRefused};
pub use frame::{Adjustment, Frame, Layer, Net, Point};
pub use grid::{Cell, Edge, Shape, Way};
pub use limits::{
    MOST_ADJUSTMENTS, MOST_BYTES, MOST_CAPACITY, MOST_CELLS, MOST_COORDINATE, MOST_ID, MOST_LAYERS,
    MOST_LOWER, MOST_MARKS, MOST_NETS, MOST_PINS, MOST_ROUNDS, MOST_ROUTED_PINS, MOST_TILE,
    MOST_WIDTH, MOST_WORKERS,
};
pub use lists::refill;
pub use name::Name;
pub use node_index::NodeIndex;
pub use routes::Routes;
pub use tree::RouteTree;
