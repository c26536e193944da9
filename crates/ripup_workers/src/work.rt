//! A worker's part of a round.
ghost use Rattle.std.specs.Prelude.{◌≡◌, ◌≤◌, All, OnOk, IsTrue};
ghost use Rattle.gr_base.specs.Designs.{is_routed};
ghost use Rattle.gr_base.specs.Limits.{most_rounds};
ghost use Rattle.grid_demand.specs.Tables.{capacity_of};
ghost use Rattle.run_histories.specs.RunHistories.{Setting};
ghost use Rattle.work_share.specs.Views.{IsHandOf};
ghost use Rattle.ripup_workers.specs.Turning.{IsOver, HasWorked};

use crate::asked::Task;
use crate::ground::Ground;
use crate::worker::Worker;
use net_plan::Planner;
use run_histories::Gate;
use std::alloc::AllocError;
use std::sync::Wait;
use std::thread::Threads;
use track_book::BookName;
use work_share::{Hand, Share};

/// A worker's part of a round: it takes nets from the share until it gets none, and attempts each.
/// The only error is want of memory, and leaves the other nets in the share.
pub(crate) fn work<N: BookName, R: Threads + Wait + Sync, G: Gate>(
    ground: &Ground<'_, N, R, G>,
    task: &Task,
    round: u32,
    share: &Share,
    hand: &mut Hand,
    worker: &mut Worker<N>,
) -> Result<(), AllocError>
    requires capacity { N.capacity ≡ capacity_of task.now.design.now }
    requires round { round ≤ most_rounds }
    requires nets { All (λ net. IsTrue (is_routed task.now.design.now net)) share.now.nets }
    requires hand { IsHandOf share.now hand.old }
    ensures hand { IsHandOf share.now hand.new }
    ensures number { hand.new.number ≡ hand.old.number }
    ensures worked { (t : Setting) → IsOver task.now.design.now task.now.rule.now.formula t →
        OnOk result (HasWorked t round hand.old.taken hand.new.taken worker.old.pass worker.new.pass) }
{
    let known = worker.pass.known();
    let mut planner = Planner::new(ground.alloc)?;
    for _ in ground.rt.forever() {
        let Some(net) = share.take(hand) else {
            break;
        };
        ground.attempt(task, round, net, worker, &mut planner)?;
    }
    let grown = known <= worker.pass.known();
    prove!(grown);
    Ok(())
}
