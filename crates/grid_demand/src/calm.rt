//! Runs of wire edges without more demand than capacity.
ghost use Rattle.std.specs.Prelude.{◌≡◌, ◌<◌, length, IfOk, IsTrue};
ghost use Rattle.grid_demand.specs.Listings.{AreTables, IsCalmRun, AreCalm};

use crate::numbers::Numbers;
use beside_calls::for_each_beside;
use std::alloc::{AllocError, Global};
use std::thread::Threads;

/// How many places are asked together whether one of their demands is above its capacity.
pub(crate) const RUN: usize = 64;

/// For each run of places whether none of its demands is above its capacity. It may also say no where
/// that is so. The only error is want of memory.
pub(crate) fn calm_runs(
    alloc: Global,
    demands: &Numbers,
    capacities: &[u32],
) -> Result<Vec<bool>, AllocError>
    requires { AreTables demands.now capacities.now }
    ensures { IfOk result (λ calm. AreCalm demands.now capacities.now calm.items) }
{
    let mut calm = vec![in alloc; false; demands.len().div_ceil(RUN)]?;
    for run in 0..calm.len() {
        calm[run] = is_calm(demands, capacities, run);
    }
    Ok(calm)
}

/// The same, by at most so many threads.
pub(crate) fn calm_runs_by<R: Threads + Sync>(
    rt: &R,
    alloc: Global,
    demands: &Numbers,
    capacities: &[u32],
    threads: u32,
) -> Result<Vec<bool>, AllocError>
    requires tables { AreTables demands.now capacities.now }
    requires threads { 0 < threads }
    ensures { IfOk result (λ calm. AreCalm demands.now capacities.now calm.items) }
{
    let mut calm = vec![in alloc; false; demands.len().div_ceil(RUN)]?;
    for_each_beside(
        rt,
        calm.as_mut_slice(),
        threads as usize,
        &|run, calm: &mut bool|
            requires { length capacities.now ≡ length demands.now }
            ensures { IsTrue calm.exit.now → IsCalmRun demands.entry.now capacities.entry.now run }
        {
            *calm = is_calm(demands, capacities, run);
        },
    );
    Ok(calm)
}

/// Whether none of the demands of a run is above its capacity. It may also be false where that is so.
fn is_calm(demands: &Numbers, capacities: &[u32], run: usize) -> bool
    requires { length capacities.now ≡ length demands.now }
    ensures { IsTrue result → IsCalmRun demands.now capacities.now run }
{
    let wires = demands.len();
    let from = wires.min(run.saturating_mul(RUN));
    let to = wires.min(from.saturating_add(RUN));
    !demands.may_exceed(capacities, from, to)
}
