//! Libraries of a chip design: the resistances and capacitances of its wires, drivers and sinks, and
//! the kinds of buffers that may stand on its wires.
#![tactic(auto)]

mod fault;
mod gathered;
mod items;
mod keyword;
mod kinds;
mod lazy_table;
mod library;
mod limits;
mod parts;
mod places;
mod read;
mod steps;
mod text;

pub use fault::{LibraryError, LibraryFault};
pub use library::Library;
pub use limits::{MOST_CAPACITANCE, MOST_KINDS, MOST_RESISTANCE, MOST_TIME};
pub use parts::{Kind, NamedKind, Sinking, Wire};
pub use read::read_library;
