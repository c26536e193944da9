//! The track book of a design, shared by threads: each caller has a pass, and the calls of all
//! passes stand in one history, which is what one thread's book would have answered.
#![tactic(auto)]

mod blank;
mod book;
mod closed;
mod locked;
mod name;
mod pass;
mod seats;
mod visit;

pub use blank::Blank;
pub use book::TrackBook;
pub use closed::ClosedBook;
pub use name::BookName;
pub use pass::Pass;
pub use visit::Visit;
