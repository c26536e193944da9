//! Judges a solution: its measures and the nets that it leaves unjoined, and the tree and the
//! straight runs of each net's edges.
#![tactic(auto)]

mod edge_numbers;
mod flood;
mod gather;
mod judgement;
mod net_count;
mod net_tree;
mod number_set;
mod reached;
mod run_maker;
mod straight_list;
mod tally;
mod tree_error;
mod verdict;

pub use judgement::{evaluate, evaluate_routes};
pub use net_tree::{TreeMaker, tree_of};
pub use run_maker::{RunMaker, straight};
pub use straight_list::Straight;
pub use tree_error::TreeError;
pub use verdict::Verdict;
