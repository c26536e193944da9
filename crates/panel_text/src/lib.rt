//! The text of the panels of a solution: the fewest tracks for its runs in each row and column.
#![tactic(auto)]

mod chains;
mod gathered;
mod laws;
mod lines;
mod panel_pieces;
mod place;
mod starts;
mod text;
mod told;

pub use laws::panels_use_fewest_tracks;
pub use text::panels;
