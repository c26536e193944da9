//! The tracks of straight pieces in a row or a column of tiles: the fewest that keep pieces with a
//! common tile apart.
#![tactic(auto)]

mod laws;
mod left_edge;
mod numbered;
mod open_tracks;
mod piece;
mod placing;

pub use laws::left_edge_is_fewest;
pub use left_edge::panel;
pub use numbered::Panel;
pub use piece::Piece;
