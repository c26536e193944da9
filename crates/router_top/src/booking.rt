//! The routes that a design's rounds book, and the verdict on them.
ghost use Rattle.std.specs.Prelude.{◌≡◌, Some, IfOk, OnOk};
ghost use Rattle.route_evaluator.specs.NetTrees.{AreTrees};
ghost use Rattle.ripup_workers.specs.Made.{IsMade};
ghost use Rattle.run_histories.specs.RunHistories.{asked_for};
ghost use Rattle.router_top.specs.Booking.{setting_of, AreBookedRoutes, AreRoundsOf, HaveBookedRoutes, IsVerdictOn};
ghost use Rattle.word_reader.specs.Orders.{AreInRange};

use crate::means::Means;
use crate::request::Request;
use batch_rounds::batch_rounds;
use cost_rules::Watcher;
use gr_base::{Design, Routes};
use ripup_workers::{Gate, Rounds, route_rounds};
use route_evaluator::{Verdict, evaluate_routes};
use run_histories::hands_of;
use std::alloc::{AllocError, Global};
use std::sync::Wait;
use std::thread::Threads;
use track_book::ClosedBook;
use word_reader::{Options, Stopping};

/// The routes of a design, with the rounds that they are from.
#[derive(Drop)]
pub(crate) struct BookedRoutes {
    pub rounds: Rounds,
    pub routes: Routes,
}

/// Routes a design as it is asked for, and copies the trees that are booked at the first mark of least overflow.
/// The only error is want of memory.
pub(crate) fn booked_routes<R: Threads + Wait + Sync, G: Gate + Sync>(
    means: &Means<R, G>,
    request: &Request,
) -> Result<BookedRoutes, AllocError>
    ensures { IfOk result (AreBookedRoutes request.now.design.now request.now.given.now request.now.options) }
{
    let rounds = rounds_of(means, request)?;
    let book = rounds.book.state();
    let routes = book.routes_at(rounds.chosen)?;
    Ok(BookedRoutes { rounds, routes })
}

/// The rounds that are asked for, in batches or by workers side by side. The only error is want of
/// memory.
fn rounds_of<R: Threads + Wait + Sync, G: Gate + Sync>(
    means: &Means<R, G>,
    request: &Request,
) -> Result<Rounds, AllocError>
    ensures { IfOk result (AreRoundsOf request.now.design.now request.now.given.now request.now.options) }
{
    match request.options.batch {
        Some(batch) => rounds_in_batches(means, request, batch),
        None => rounds_by_workers(means, request),
    }
}

/// The rounds in batches of so many nets. The only error is want of memory.
fn rounds_in_batches<R: Threads + Wait + Sync, G: Gate + Sync>(
    means: &Means<R, G>,
    request: &Request,
    batch: u32,
) -> Result<Rounds, AllocError>
    requires { request.now.options.batch ≡ Some batch }
    ensures { IfOk result (AreRoundsOf request.now.design.now request.now.given.now request.now.options) }
{
    let options = request.options;
    let rule = means.rules.of(options.rule);
    let batched = batch_rounds(
        means.rt,
        means.alloc,
        request.design,
        request.given,
        rule,
        options.workers,
        options.rounds,
        batch,
        means.gate,
    )?;
    let hands = hands_of(means.alloc, batched.state.history(), options.workers + 1)?;
    Ok(Rounds {
        book: ClosedBook::of(batched.state),
        hands,
        chosen: batched.chosen,
    })
}

/// The rounds by workers side by side, which end early as they are to stop. The only error is want of
/// memory.
fn rounds_by_workers<R: Threads + Wait + Sync, G: Gate + Sync>(
    means: &Means<R, G>,
    request: &Request,
) -> Result<Rounds, AllocError>
    ensures { IfOk result
        (IsMade (setting_of request.now.design.now request.now.given.now request.now.options)) }
{
    let rules = means.rules;
    match request.options.stop {
        Stopping::Never => rounds_by(means, request, rules.never(), 0),
        Stopping::Still => rounds_by(means, request, rules.still(), 0),
        Stopping::Goal { overflow } => {
            let goal = u128::from(overflow);
            rounds_by(means, request, rules.goal(), goal)
        }
    }
}

/// The same, by this watcher and its goal.
fn rounds_by<R: Threads + Wait + Sync, G: Gate + Sync>(
    means: &Means<R, G>,
    request: &Request,
    watcher: &Watcher,
    goal: u128,
) -> Result<Rounds, AllocError>
    ensures { let r = request.now in let o = r.options in IfOk result
        (IsMade (asked_for r.design.now r.given.now o.rule o.workers o.rounds watcher.now.watch goal)) }
{
    let options = request.options;
    route_rounds(
        means.rt,
        means.alloc,
        request.design,
        request.given,
        means.rules.of(options.rule),
        options.workers,
        options.rounds,
        watcher,
        goal,
        means.gate,
    )
}

/// The verdict on booked routes, by the loads that the book had at their mark. The only error is want
/// of memory.
pub(crate) fn verdict_on(
    alloc: Global,
    design: &Design,
    booked: &BookedRoutes,
    options: Options,
) -> Result<Verdict, AllocError>
    requires booked { HaveBookedRoutes design.now options booked.now }
    requires options { AreInRange options }
    ensures verdict { IfOk result (IsVerdictOn design.now options booked.now.routes) }
    ensures trees { OnOk result (AreTrees design.now booked.now.routes) }
{
    let book = booked.rounds.book.state();
    let capacity = book.capacity();
    let front = booked.rounds.chosen;
    let via_cost = options.via_cost;
    if front == book.history().len() {
        return evaluate_routes(
            alloc,
            design,
            capacity,
            book.loads(),
            &booked.routes,
            via_cost,
        );
    }
    let loads = book.loads_at(capacity, front)?;
    evaluate_routes(alloc, design, capacity, &loads, &booked.routes, via_cost)
}
