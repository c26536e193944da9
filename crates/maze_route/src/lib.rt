//! Least walks: from a tree to the nearest of some goals, inside a window of the grid.
#![tactic(auto)]

mod aim;
mod back;
mod bucket;
mod divisor;
mod ends;
mod field;
mod first;
mod front;
mod heads;
mod numbers;
mod pane;
mod places;
mod positions;
mod queue;
mod resume;
mod room;
mod runs;
mod scales;
mod search;
mod side;
mod slot;
mod span;
mod steps;
mod walk;
mod window;

pub use queue::BucketQueue;
pub use room::MazeRoom;
pub use runs::{RunCosts, price_each};
pub use walk::{least_walk, least_walk_by};
pub use window::Window;
