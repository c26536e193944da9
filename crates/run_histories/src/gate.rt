//! Where the rounds stop on their way.
use std::sync::Wait;
use std::thread::Threads;

/// How far the rounds have come: what a worker is about to do for a net, or that a round has ended.
#[derive(Clone, Copy, Debug, PartialEq, Eq)]
pub enum Stop {
    /// A worker begins with a net in a round.
    Turn {
        net: u32,
        round: u32,
    },
    /// It is about to search for the net's plan.
    Search {
        net: u32,
    },
    /// It is about to claim the net.
    Claim {
        net: u32,
    },
    /// A round has ended with a mark, which was answered with this overflow, and so many nets are due in
    /// the next one: 0 where the rounds are over.
    Marked {
        round: u32,
        overflow: u128,
        due: u64,
    },
}

/// What the rounds pass on their way.
pub trait Gate {
    /// A stop of the one whose entries stand under `number` in the history: 0 at `Marked`, else the
    /// worker's, from 1; it goes on after the return. Each worker passes `Turn` before all else that it
    /// does for a net in a round, and rounds by several workers pass `Search` before each search and
    /// `Claim` before each claim too. The gate may wait for other workers, but at `Claim` the worker may
    /// hold the book's lock, from its net's release on: a gate that waits there for an entry of another
    /// worker waits in vain. Rounds in batches pass `Turn` with number 1 before each net's plan in its
    /// batch, from several threads.
    fn pass<R: Threads + Wait + Sync>(&self, rt: &R, number: u32, stop: Stop);
}

/// A gate at which nobody waits.
#[derive(Clone, Copy, Debug)]
pub struct OpenGate;

impl Gate for OpenGate {
    fn pass<R: Threads + Wait + Sync>(&self, _rt: &R, _number: u32, _stop: Stop) {}
}
