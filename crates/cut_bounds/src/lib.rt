//! Lower bounds on the overflow and the wirelength of every routing of a design.
#![tactic(auto)]

mod axis;
mod bounding;
mod box_holds;
mod box_needs;
mod box_numbers;
mod boxes;
mod boxes_of;
mod candidates;
mod cuts;
mod figures;
mod fullest;
mod gains;
mod kinds;
mod net_tiles;
mod parted;
mod places;
mod ranked;
mod straight;
mod taken;
mod text;
mod tile_wires;
mod wall;

pub use bounding::bounds_of;
pub use figures::Bounds;
pub use text::bounds_text;
pub use wall::{MeasuredWall, TileBox, Wall};
