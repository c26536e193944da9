//! What the words of a command line ask for.
#![tactic(auto)]

mod error;
mod form;
mod laws;
mod meaning;
mod numbers;
mod order;
mod program;
mod reader;
mod sorted;
mod values;

pub use error::WordError;
pub use form::{MOST_BATCH, MOST_VIA_COST};
pub use laws::words_sort_by_rule;
pub use order::{Options, Order, Stopping};
pub use program::Program;
pub use reader::read_words;
