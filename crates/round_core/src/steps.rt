//! Where workers stand, the steps that they may take, and why a step is refused.
use book_state::Claim;
use thiserror::Error;

/// Where a worker stands in its round.
#[derive(Clone, Copy, Debug, PartialEq, Eq)]
pub enum Phase {
    /// At no net.
    Idle,
    /// At a net that it took.
    Holding { net: u32 },
    /// At a net that it released and has then claimed `tries` times, 0 to 2. `since` is the length of
    /// the history just after its last entry.
    Trying { net: u32, tries: u32, since: u64 },
    /// The rounds are over.
    Ended,
}

/// A step of a worker, counted from 0, or the mark that ends a round.
#[derive(Debug, Drop)]
pub enum Step {
    Take { worker: u32, net: u32 },
    Release { worker: u32 },
    Claim { worker: u32, claim: Claim },
    Mark,
}

/// Why a step didn't happen. The step comes back, and nothing was changed.
#[derive(Debug, Drop, Error)]
pub enum StepRefused {
    /// The rules don't allow the step to a worker in this phase. For a mark it is the phase of the
    /// first worker that isn't idle.
    #[error("the rules don't allow the step")]
    NotAllowed { phase: Phase, step: Step },
    /// The book has no memory for the entry.
    #[error("out of memory")]
    NoMemory { step: Step },
}
