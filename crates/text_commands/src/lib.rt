//! The commands that make no rounds: `evaluate`, `buffer`, `panels` and `make`.
#![tactic(auto)]

mod buffering;
mod judging;
mod making;
mod placing;
mod told;
mod tracking;

pub use buffering::{buffer, buffers_on};
pub use judging::judge;
pub use making::make_design;
pub use tracking::panels;
