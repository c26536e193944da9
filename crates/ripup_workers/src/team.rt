//! Who takes part in rounds, and what a mark shows.
use crate::worker::Worker;
use gr_base::Cells;
use std::alloc::AllocError;
use track_book::{BookName, Pass};
use work_share::Hand;

/// The caller that ends the rounds.
#[derive(Drop)]
pub(crate) struct Coordinator<N: BookName> {
    pub(crate) pass: Pass<N>,
}

/// What the mark at the end of a round shows: the total overflow, and the booked nets on edges over
/// their capacity.
#[derive(Drop)]
pub(crate) struct Marked {
    pub(crate) overflow: u128,
    pub(crate) victims: Cells,
}

/// How a round ended: its workers, the nets of the next one, and the total overflow at its mark.
#[derive(Drop)]
pub(crate) struct RoundEnd<N: BookName> {
    pub(crate) workers: Vec<Worker<N>>,
    pub(crate) nets: Vec<u32>,
    pub(crate) overflow: u128,
}

/// A worker in a round, with its hand. Memory may have been wanting.
#[derive(Drop)]
pub(crate) struct Member<N: BookName> {
    pub(crate) worker: Worker<N>,
    pub(crate) hand: Hand,
    pub(crate) done: Result<(), AllocError>,
}
