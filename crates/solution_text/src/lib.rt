//! The text of a solution: what it says of each net, and the one text that is written of the nets' edges.
#![tactic(auto)]

mod fault;
mod law;
mod point;
mod run;

pub use fault::SolutionFault;
pub use law::written_text_is_covered;
pub use point::put_point;
pub use run::Run;
