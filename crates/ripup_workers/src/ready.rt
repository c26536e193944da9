//! Memory for entries, before the lock is taken.
use book_state::{Call, Entry, Reply};
use std::alloc::Global;
use std::sync::Arc;

/// Takes memory for an entry, and gives it back.
///
/// The book takes such memory under its lock. An allocator that keeps what a thread gave back for what
/// that thread asks for next, as those of glibc and of jemalloc do, has it at hand then; else the others
/// would wait at the lock while it asks the kernel for more.
pub(crate) fn ready_memory(alloc: Global) {
    let _entry = Arc::new(alloc, no_entry());
}

/// An entry that stands in no history.
fn no_entry() -> Entry {
    Entry {
        number: 0,
        call: Call::Mark,
        reply: Reply::NotBooked,
    }
}
