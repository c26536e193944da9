//! The devices that a router reads from and writes to: a shelf of named texts, and sinks of bytes; and the
//! words that a program is started with.
#![tactic(auto)]

mod calls;
mod copy;
mod host_shelf;
mod host_sink;
mod memory_shelf;
mod memory_sink;
mod program;
mod shelf;
mod sink;
mod slots;
mod sure;
mod text;
mod whole;

pub use host_shelf::HostShelf;
pub use host_sink::HostSink;
pub use memory_shelf::MemoryShelf;
pub use memory_sink::MemorySink;
pub use program::words;
pub use shelf::{Failed, ReachError, Shelf, Slot};
pub use sink::Sink;
pub use sure::{SureShelf, SureSink};
pub use whole::write_whole;
