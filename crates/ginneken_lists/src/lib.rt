//! Lists of choices of buffers below the points of a tree, by van Ginneken's method: each pair of a
//! list has a load, a required time, and a mark that names the buffers that are chosen.
//!
//! After van Ginneken, "Buffer placement in distributed RC-tree networks for minimal Elmore delay",
//! 1990.
#![tactic(auto)]

mod choice;
mod insertion;
mod laws;
mod list;
mod merging;
mod offer;
mod offering;
mod pair;
mod pool;
mod steps;
mod stored;
mod trail;
mod wiring;

pub use choice::Choice;
pub use laws::{thinning, thinning_again};
pub use list::OptionList;
pub use offer::Offer;
pub use pair::Pair;
pub use pool::ListPool;
pub use steps::Steps;
pub use trail::Trail;
