//! The order in which the nets of a round are shared among workers.
#![tactic(auto)]

mod order;
mod survey;
mod traits;

pub use order::by_regions;
pub use survey::Survey;
