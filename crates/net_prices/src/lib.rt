//! What a net pays at least for any set of edges that joins its pins, at prices on edges.
#![tactic(auto)]

mod arcs;
mod finder;
mod fold;
mod groups;
mod labels;
mod levels;
mod net_pricer;
mod payment;
mod price_table;
mod pricing;
mod rates;
mod search;
mod tree_demand;
mod waiting;

pub use net_pricer::NetPricer;
pub use rates::Rates;
