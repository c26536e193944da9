//! What the workers of a run share.
use std::alloc::Global;
use track_book::{BookName, TrackBook};

/// What the workers share as they attempt nets. What they attempt stands apart, in `Task`.
#[derive(Drop)]
pub(crate) struct Ground<'a, N: BookName, R, G> {
    pub(crate) rt: &'a R,
    pub(crate) alloc: Global,
    pub(crate) book: &'a TrackBook<N>,
    pub(crate) gate: &'a G,
}
