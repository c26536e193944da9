//! Laws of runs that begin from a solution's routes.
#![tactic(auto)]

mod laws;

pub use laws::{kept_as_given, never_worse};
