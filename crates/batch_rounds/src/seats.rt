//! The seats of all batches.
ghost use Rattle.std.specs.Prelude.{◌<◌, ◌≤◌, length};
ghost use Rattle.gr_base.specs.Limits.{most_workers};

use crate::seat::Seat;
use net_plan::Planner;
use std::alloc::{AllocError, Global};

/// A seat for each thread, at which batches are planned side by side, and the planner of the nets that are
/// then planned alone.
#[derive(Drop)]
pub(crate) struct Seats {
    pub(crate) each: Vec<Seat>,
    pub(crate) alone: Planner,
    ghost some: { 0 < length each.items },
    ghost few: { length each.items ≤ most_workers },
}

impl Seats {
    /// Seats for so many threads. The only error is want of memory.
    pub(crate) fn new(alloc: Global, threads: u32) -> Result<Seats, AllocError>
        requires some { 0 < threads }
        requires few { threads ≤ most_workers }
    {
        let alone = Planner::new(alloc)?;
        let mut each = Vec::new(alloc);
        for _ in 0..threads {
            let planner = Planner::new(alloc)?;
            each.push(Seat {
                planner,
                plans: Vec::new(alloc),
                done: Ok(()),
            })?;
        }
        Ok(Seats { each, alone })
    }
}
