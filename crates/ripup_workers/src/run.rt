//! The rounds over one book, from its begin to its end.
ghost use Rattle.std.specs.Prelude.{◌≡◌, ◌+◌, ◌<◌, ◌≤◌, [], ◌∷◌, map, length, All, IfOk, IsTrue};
ghost use Rattle.std.specs.List.{filter};
ghost use Rattle.gr_base.specs.Designs.{is_routed};
ghost use Rattle.grid_demand.specs.Tables.{capacity_of};
ghost use Rattle.track_book.specs.Passes.{AreBegun, AreAll, IsClosed};
ghost use Rattle.ripup_workers.specs.Closing.{AreNew, IsMadeBook};
ghost use Rattle.ripup_workers.specs.Rounding.{setting_of, is_stop_at, due_after, IsRoundOver, HaveRun};

use crate::asked::Asked;
use crate::given::begin_given;
use crate::ground::Ground;
use crate::round::attempt_nets;
use crate::team::{Coordinator, RoundEnd};
use crate::worker::Worker;
use book_state::Replica;
use cost_rules::{Going, Sight};
use gr_base::Design;
use net_order::{Survey, by_regions};
use run_histories::{Gate, MARKER, Stop, open_nets};
use std::alloc::{AllocError, Global};
use std::sync::Wait;
use std::thread::Threads;
use track_book::{Blank, BookName, ClosedBook, Pass, TrackBook};

/// The book of the rounds, closed. The only error is want of memory.
pub(crate) fn book_of_rounds<N: BookName + Send + Sync, R: Threads + Wait + Sync, G: Gate + Sync>(
    rt: &R,
    alloc: Global,
    asked: &Asked,
    gate: &G,
    blank: Blank,
) -> Result<ClosedBook, AllocError>
    requires word { blank.word ≡ N.word }
    requires capacity { blank.capacity ≡ N.capacity }
    requires passes { blank.passes ≡ N.passes }
    requires design { N.capacity ≡ capacity_of asked.now.design.now }
    requires count { N.passes ≡ asked.now.workers + 1 }
    ensures { IfOk result (λ closed. IsMadeBook (setting_of asked.now) closed.state) }
{
    let (book, passes) = blank.begin::<N>(alloc)?;
    let (mut coordinator, workers) = callers(alloc, &book, asked.design, passes)?;
    let ground = Ground {
        rt,
        alloc,
        book: &book,
        gate,
    };
    let workers = run_rounds(&ground, asked, &mut coordinator, workers)?;
    let made = closed(alloc, book, coordinator, workers)?;
    Ok(made)
}

/// Who takes part: the coordinator with the first pass, and a worker with each other one.
fn callers<N: BookName>(
    alloc: Global,
    book: &TrackBook<N>,
    design: &Design,
    passes: Vec<Pass<N>>,
) -> Result<(Coordinator<N>, Vec<Worker<N>>), AllocError>
    requires capacity { N.capacity ≡ capacity_of design.now }
    requires some { 1 ≤ length passes.items }
    requires begun { AreBegun (length passes.items) passes.items }
    ensures { IfOk result (λ callers. (callers.0.pass ∷ map (λ w. w.pass) callers.1.items) ≡ passes.items) }
{
    let mut passes = passes;
    let first = passes.remove(0);
    let workers = workers_of(alloc, book, design, passes)?;
    Ok((Coordinator { pass: first }, workers))
}

/// A worker with each pass, none of which has seen anything.
fn workers_of<N: BookName>(
    alloc: Global,
    book: &TrackBook<N>,
    design: &Design,
    passes: Vec<Pass<N>>,
) -> Result<Vec<Worker<N>>, AllocError>
    requires capacity { N.capacity ≡ capacity_of design.now }
    requires nothing { All (λ p. p.seen ≡ []) passes.items }
    ensures { IfOk result (λ workers. map (λ w. w.pass) workers.items ≡ passes.items) }
{
    let mut workers = Vec::with_capacity(alloc, passes.len())?;
    let mut rest = passes.into_iter();
    while let Some(pass) = rest.next() {
        let worker = worker_with(alloc, book, design, pass)?;
        workers.push_reserved(worker);
    }
    Ok(workers)
}

/// A worker with a pass that has seen nothing.
fn worker_with<N: BookName>(
    alloc: Global,
    book: &TrackBook<N>,
    design: &Design,
    pass: Pass<N>,
) -> Result<Worker<N>, AllocError>
    requires capacity { N.capacity ≡ capacity_of design.now }
    requires nothing { pass.seen ≡ [] }
    ensures { IfOk result (λ worker. worker.pass ≡ pass) }
{
    let replica = Replica::of(alloc, book.capacity(), design.nets())?;
    Ok(Worker { pass, replica })
}

/// The rounds, each up to and with its mark.
fn run_rounds<N: BookName + Send + Sync, R: Threads + Wait + Sync, G: Gate + Sync>(
    ground: &Ground<'_, N, R, G>,
    asked: &Asked,
    coordinator: &mut Coordinator<N>,
    workers: Vec<Worker<N>>,
) -> Result<Vec<Worker<N>>, AllocError>
    requires capacity { N.capacity ≡ capacity_of asked.now.design.now }
    requires new { AreNew (setting_of asked.now) coordinator.old.pass (map (λ w. w.pass) workers.items) }
    ensures { IfOk result (λ after. HaveRun (setting_of asked.now) coordinator.new.pass
        (map (λ w. w.pass) after.items)) }
{
    let mut workers = workers;
    let survey = Survey::of(ground.rt, ground.alloc, asked.design, asked.workers)?;
    let mut nets = open_nets(ground.alloc, asked.design, asked.given)?;
    let Ground {
        rt,
        alloc,
        book,
        gate,
    } = *ground;
    begin_given(rt, alloc, book, asked, coordinator, &mut workers)?;
    let mut before = None;
    for round in 0..asked.rounds + 1 {
        let end = run_round(ground, asked, round, &survey, nets, coordinator, workers)?;
        workers = end.workers;
        nets = end.nets;
        let due = due_after(asked, round, end.overflow, before, nets.len());
        tell_mark(rt, gate, round, end.overflow, due);
        if due == 0 {
            return Ok(workers);
        }
        before = Some(end.overflow);
    }
    Ok(workers)
}

/// A round of these nets up to and with its mark. The survey tells in which order they go.
fn run_round<N: BookName + Send + Sync, R: Threads + Wait + Sync, G: Gate + Sync>(
    ground: &Ground<'_, N, R, G>,
    asked: &Asked,
    round: u32,
    survey: &Survey<'_>,
    nets: Vec<u32>,
    coordinator: &mut Coordinator<N>,
    workers: Vec<Worker<N>>,
) -> Result<RoundEnd<N>, AllocError>
    requires capacity { N.capacity ≡ capacity_of asked.now.design.now }
    requires round { round ≤ asked.now.rounds }
    requires nets { All (λ net. IsTrue (is_routed asked.now.design.now net)) nets.items }
    requires count { length workers.items ≡ asked.now.workers }
    requires survey { survey.now.design.now ≡ asked.now.design.now }
    ensures { IfOk result (λ end. IsRoundOver (setting_of asked.now) round end.overflow nets.items
        end.nets.items coordinator.old.pass coordinator.new.pass
        (map (λ w. w.pass) workers.items) (map (λ w. w.pass) end.workers.items)) }
{
    let rt = ground.rt;
    let alloc = ground.alloc;
    let order = by_regions(rt, alloc, survey, round, &nets, asked.workers)?;
    let mut workers = attempt_nets(ground, asked, round, &order, workers)?;
    let marked = coordinator.end_round(rt, ground.book, &mut workers, asked.workers)?;
    let kept = routed_of(alloc, asked.design, marked.victims.as_slice())?;
    Ok(RoundEnd {
        workers,
        nets: kept,
        overflow: marked.overflow,
    })
}

/// How many nets the round after this one has, where so many could be due.
fn due_after(asked: &Asked, round: u32, overflow: u128, before: Option<u128>, nets: usize) -> u64
    ensures { result ≡ due_after (setting_of asked.now) round overflow before nets }
{
    if round == asked.rounds || is_stopped(asked, overflow, before) {
        return 0;
    }
    nets as u64
}

/// Lets the gate know that a round has ended with a mark.
fn tell_mark<R: Threads + Wait + Sync, G: Gate>(
    rt: &R,
    gate: &G,
    round: u32,
    overflow: u128,
    due: u64,
) {
    gate.pass(
        rt,
        MARKER,
        Stop::Marked {
            round,
            overflow,
            due,
        },
    );
}

/// Whether the watcher says Stop at this overflow, after that one.
fn is_stopped(asked: &Asked, overflow: u128, before: Option<u128>) -> bool
    ensures { result ≡ is_stop_at (setting_of asked.now) overflow before }
{
    let sight = Sight {
        overflow,
        before,
        goal: asked.goal,
    };
    asked.watcher.look(sight) == Going::Stop
}

/// Those of these nets that are routed. They are all of them, since only callers add entries, but until
/// the book is closed nothing says that no other did.
fn routed_of(alloc: Global, design: &Design, nets: &[u32]) -> Result<Vec<u32>, AllocError>
    requires { All (λ net. net < length design.now.nets) nets.now }
    ensures { IfOk result (λ kept. kept.items ≡ filter (is_routed design.now) nets.now) }
{
    let mut kept = Vec::new(alloc);
    for &net in nets {
        if design.routed(net) {
            kept.push(net)?;
        }
    }
    Ok(kept)
}

/// Ends the book. The only error is want of memory.
fn closed<N: BookName>(
    alloc: Global,
    book: TrackBook<N>,
    coordinator: Coordinator<N>,
    workers: Vec<Worker<N>>,
) -> Result<ClosedBook, AllocError>
    requires { AreAll N.passes (coordinator.pass ∷ map (λ w. w.pass) workers.items) }
    ensures closed { IfOk result (λ closed. IsClosed N.capacity (coordinator.pass ∷ map (λ w. w.pass) workers.items)
        closed.state.history) }
    ensures capacity { IfOk result (λ closed. closed.state.capacity ≡ N.capacity) }
{
    let mut passes = Vec::with_capacity(alloc, workers.len() + 1)?;
    passes.push_reserved(coordinator.pass);
    let mut rest = workers.into_iter();
    while let Some(worker) = rest.next() {
        passes.push_reserved(worker.pass);
    }
    match book.close(passes) {
        Ok(closed) => Ok(closed),
        Err(_) => Err(AllocError),
    }
}
