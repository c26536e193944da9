//! A place of the queue.
/// A place for a pair.
#[derive(Clone, Copy, Debug)]
pub(crate) struct Slot {
    pub(crate) key: u64,
    pub(crate) cell: u32,
    /// The next place of its bucket, or the next free place.
    pub(crate) next: Option<u32>,
    /// Whether a pair waits here.
    pub(crate) taken: bool,
}
