//! What the workers do in a round.
ghost use Rattle.std.specs.Prelude.{◌≡◌, ◌<◌, ◌≤◌, ℕ, length, map, slice_index_or, All, IfOk, OnOk, IsTrue};
ghost use Rattle.gr_base.specs.Designs.{is_routed};
ghost use Rattle.grid_demand.specs.Tables.{capacity_of};
ghost use Rattle.book_state.specs.Books.{IsLegal};
ghost use Rattle.work_share.specs.Views.{IsHandOf};
ghost use Rattle.ripup_workers.specs.Rounding.{setting_of, HaveAttempted};
ghost use Rattle.ripup_workers.specs.Crews.{IsWorked, HasAttemptedOver};

use crate::asked::{Asked, Task};
use crate::ground::Ground;
use crate::members::{members_of, parted};
use crate::team::Member;
use crate::work::work;
use crate::worker::Worker;
use beside_calls::for_each_beside;
use net_plan::Planner;
use run_histories::Gate;
use std::alloc::{AllocError, Global};
use std::sync::Wait;
use std::thread::Threads;
use track_book::{BookName, TrackBook};
use work_share::{Share, share};

/// The workers attempt these nets, each once as often as it stands among them, side by side. The only
/// error is want of memory.
pub(crate) fn attempt_nets<N: BookName + Send + Sync, R: Threads + Wait + Sync, G: Gate + Sync>(
    ground: &Ground<'_, N, R, G>,
    asked: &Asked,
    round: u32,
    nets: &[u32],
    workers: Vec<Worker<N>>,
) -> Result<Vec<Worker<N>>, AllocError>
    requires capacity { N.capacity ≡ capacity_of asked.now.design.now }
    requires round { round ≤ asked.now.rounds }
    requires nets { All (λ net. IsTrue (is_routed asked.now.design.now net)) nets.now }
    requires count { length workers.items ≡ asked.now.workers }
    ensures { IfOk result (λ after. HaveAttempted (setting_of asked.now) round nets.now
        (map (λ w. w.pass) workers.items) (map (λ w. w.pass) after.items)) }
{
    let (shared, hands) = share(ground.alloc, nets, asked.workers)?;
    let mut members = members_of(ground.alloc, workers, hands)?;
    let Ground {
        rt,
        alloc,
        book,
        gate,
    } = *ground;
    let task = Task {
        design: asked.design,
        rule: asked.rule,
        workers: asked.workers,
        rounds: asked.rounds,
    };
    work_all(rt, alloc, &task, round, book, &shared, gate, &mut members);
    let (mut workers, hands) = parted(ground.alloc, members)?;
    let end = shared.end(hands)?;
    attempt_rest(ground, &task, round, end.rest(), &mut workers[0])?;
    Ok(workers)
}

/// Each member works, in a thread of its own. What a ground holds comes part by part, since only so it is
/// known that threads may share it.
fn work_all<N: BookName + Send + Sync, R: Threads + Wait + Sync, G: Gate + Sync>(
    rt: &R,
    alloc: Global,
    task: &Task,
    round: u32,
    book: &TrackBook<N>,
    share: &Share,
    gate: &G,
    members: &mut Vec<Member<N>>,
)
    requires capacity { N.capacity ≡ capacity_of task.now.design.now }
    requires round { round ≤ task.now.rounds }
    requires nets { All (λ net. IsTrue (is_routed task.now.design.now net)) share.now.nets }
    requires hands { All (λ m. IsHandOf share.now m.hand) members.old.items }
    ensures count { length members.new.items ≡ length members.old.items }
    ensures worked { (at : ℕ) (d : _) → at < length members.old.items →
        IsWorked share.now task.now.design.now task.now.rule.now.formula round
        (slice_index_or members.old.items at d).hand
        (slice_index_or members.new.items at d).hand (slice_index_or members.old.items at d).worker.pass
        (slice_index_or members.new.items at d).worker.pass (slice_index_or members.new.items at d).done }
{
    for_each_beside(
        rt,
        members.as_mut_slice(),
        task.workers as usize,
        &|_, member: &mut Member<N>|
            requires { (N.capacity ≡ capacity_of task.now.design.now) × (round ≤ task.now.rounds) ×
                All (λ net. IsTrue (is_routed task.now.design.now net)) share.now.nets ×
                IsHandOf share.now member.now.hand }
            ensures { IsWorked share.entry.now task.entry.now.design.now
                task.entry.now.rule.now.formula round
                member.entry.now.hand member.exit.now.hand member.entry.now.worker.pass member.exit.now.worker.pass
                member.exit.now.done }
        {
            work_one(rt, alloc, task, round, book, share, gate, member);
        },
    );
}

/// A member works.
fn work_one<N: BookName, R: Threads + Wait + Sync, G: Gate>(
    rt: &R,
    alloc: Global,
    task: &Task,
    round: u32,
    book: &TrackBook<N>,
    share: &Share,
    gate: &G,
    member: &mut Member<N>,
)
    requires capacity { N.capacity ≡ capacity_of task.now.design.now }
    requires round { round ≤ task.now.rounds }
    requires nets { All (λ net. IsTrue (is_routed task.now.design.now net)) share.now.nets }
    requires hand { IsHandOf share.now member.old.hand }
    ensures { IsWorked share.now task.now.design.now task.now.rule.now.formula round
        member.old.hand member.new.hand member.old.worker.pass member.new.worker.pass member.new.done }
{
    let ground = Ground {
        rt,
        alloc,
        book,
        gate,
    };
    member.done = work(
        &ground,
        task,
        round,
        share,
        &mut member.hand,
        &mut member.worker,
    );
}

/// A worker attempts the nets that are left, of which there are none in practice.
fn attempt_rest<N: BookName, R: Threads + Wait + Sync, G: Gate>(
    ground: &Ground<'_, N, R, G>,
    task: &Task,
    round: u32,
    nets: &[u32],
    worker: &mut Worker<N>,
) -> Result<(), AllocError>
    requires capacity { N.capacity ≡ capacity_of task.now.design.now }
    requires round { round ≤ task.now.rounds }
    requires nets { All (λ net. IsTrue (is_routed task.now.design.now net)) nets.now }
    requires legal { IsLegal N.capacity worker.old.pass.seen }
    ensures { OnOk result
        (HasAttemptedOver task.now.design.now task.now.rule.now.formula round nets.now
        worker.old.pass worker.new.pass) }
{
    let mut planner = Planner::new(ground.alloc)?;
    for &net in nets {
        ground.attempt(task, round, net, worker, &mut planner)?;
    }
    Ok(())
}
