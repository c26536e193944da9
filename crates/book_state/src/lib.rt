//! A book of the tracks of a design, for one thread: it answers claims and releases of routes, and
//! keeps the history of all calls with their replies.
#![tactic(auto)]

mod book;
mod copies;
mod crowds;
mod edges;
mod entry;
mod extents;
mod history;
mod laws;
mod least;
mod lifted;
mod past;
mod places;
mod replica;
mod still;
mod touches;
mod victims;

pub use book::{BookState, ClaimRefused};
pub use entry::{Call, Claim, Entry, PlanKind, Reply};
pub use history::History;
pub use laws::replies_make_bookings;
pub use past::Past;
pub use replica::Replica;
pub use still::Sought;
