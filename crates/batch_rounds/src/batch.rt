//! A batch: its nets are planned side by side over one history, and then claimed in order.
ghost use Rattle.std.specs.Prelude.{◌≡◌, ◌<◌, ◌≤◌, All, length, OnOk, Ok};
ghost use Rattle.book_state.specs.Books.{nets_of};
ghost use Rattle.gr_base.specs.Designs.{AreRouted};
ghost use Rattle.gr_base.specs.Limits.{most_workers};
ghost use Rattle.grid_demand.specs.Tables.{capacity_of};
ghost use Rattle.batch_rounds.specs.BatchedHistories.{after_releases, AreTurns, IsBatch};
ghost use Rattle.batch_rounds.specs.Rounds.{batching_of};
ghost use Rattle.batch_rounds.specs.Seats.{IsShare, HasPlanned, HavePlans};

use crate::asked::Due;
use crate::basis::Basis;
use crate::claims::{CLAIMANT, claim_net};
use crate::means::Means;
use crate::seat::{Seat, all_done, take_plan};
use crate::seats::Seats;
use beside_calls::for_each_beside;
use book_state::BookState;
use net_plan::Planner;
use run_histories::Gate;
use std::alloc::{AllocError, Global};
use std::sync::Wait;
use std::thread::Threads;

/// How many nets a thread has to plan at least in round 0, and how many later. Starting a thread takes as
/// long as some pattern plans, and hardly longer than a maze plan.
const LEAST_PATTERNS: usize = 64;

const LEAST_MAZES: usize = 4;

/// A batch: in a later round its nets are released; then they are planned over the history there is, and
/// claimed in order. The only error is want of memory.
pub(crate) fn run_batch<R: Threads + Wait + Sync, G: Gate + Sync>(
    means: &Means<R, G>,
    batch: &Due,
    book: &mut BookState,
    seats: &mut Seats,
) -> Result<(), AllocError>
    requires { book.old.capacity ≡ capacity_of batch.now.asked.now.design.now }
    ensures capacity { OnOk result (book.new.capacity ≡ capacity_of batch.now.asked.now.design.now) }
    ensures batch { OnOk result (IsBatch (batching_of batch.now.asked.now) batch.now.round batch.now.nets.now
        book.old.history book.new.history) }
{
    if batch.round > 0 {
        release_all(book, batch.nets)?;
    }
    plan_and_claim(means, batch, book, &mut seats.each, &mut seats.alone)
}

/// Plans a batch's nets over the history there is, and claims them in order. The only error is want of
/// memory.
fn plan_and_claim<R: Threads + Wait + Sync, G: Gate + Sync>(
    means: &Means<R, G>,
    batch: &Due,
    book: &mut BookState,
    seats: &mut [Seat],
    alone: &mut Planner,
) -> Result<(), AllocError>
    requires capacity { book.old.capacity ≡ capacity_of batch.now.asked.now.design.now }
    requires some { 0 < length seats.old }
    requires few { length seats.old ≤ most_workers }
    ensures capacity { OnOk result (book.new.capacity ≡ capacity_of batch.now.asked.now.design.now) }
    ensures turns { OnOk result (AreTurns (batching_of batch.now.asked.now) batch.now.round book.old.history
        batch.now.nets.now book.old.history book.new.history) }
{
    let count = seats_for(seats.len(), batch.round, batch.nets.len());
    let seats = &mut seats[..count];
    plan_beside(means, batch, book, seats);
    all_done(seats)?;
    claim_all(means.alloc, batch, book, seats, alone)
}

/// At how many of the seats a batch of so many nets is planned.
fn seats_for(seats: usize, round: u32, nets: usize) -> usize
    requires { 0 < seats }
    ensures some { 0 < result }
    ensures most { result ≤ seats }
{
    let least = if round == 0 {
        LEAST_PATTERNS
    } else {
        LEAST_MAZES
    };
    (nets / least).clamp(1, seats)
}

/// Releases the nets, in order.
fn release_all(book: &mut BookState, nets: &[u32]) -> Result<(), AllocError>
    requires { All (λ net. net < nets_of book.old.capacity) nets.now }
    ensures capacity { OnOk result (book.new.capacity ≡ book.old.capacity) }
    ensures releases { OnOk result
        (book.new.history ≡ after_releases book.old.capacity book.old.history nets.now) }
{
    for &net in nets {
        book.release(CLAIMANT, net)?;
    }
    Ok(())
}

/// Plans a batch's nets over the history there is, at the seats side by side. Memory may be wanting at a
/// seat.
fn plan_beside<R: Threads + Wait + Sync, G: Gate + Sync>(
    means: &Means<R, G>,
    batch: &Due,
    book: &BookState,
    seats: &mut [Seat],
)
    requires capacity { book.now.capacity ≡ capacity_of batch.now.asked.now.design.now }
    requires some { 0 < length seats.old }
    requires few { length seats.old ≤ most_workers }
    ensures count { length seats.new ≡ length seats.old }
    ensures plans { All (λ seat. seat.done ≡ Ok tt) seats.new →
        HavePlans batch.now.asked.now.design.now batch.now.asked.now.rule.now.formula batch.now.round
        book.now.history batch.now.nets.now 0 seats.new }
{
    let basis = Basis::over(means.alloc, batch.asked, batch.round, book);
    let (rt, gate, nets) = (means.rt, means.gate, batch.nets);
    let count = seats.len();
    for_each_beside(
        rt,
        seats,
        count,
        &|first, seat: &mut Seat|
            requires { IsShare first count nets.now × AreRouted basis.design.now nets.now }
            ensures { seat.exit.now.done ≡ Ok tt → HasPlanned basis.entry.design.now basis.entry.rule.now.formula
                basis.entry.round basis.entry.loads.now nets.entry.now first count seat.exit.now }
        { seat.plan_share(rt, gate, &basis, nets, first, count) },
    );
}

/// Claims a batch's nets in order, each for the plan that a seat holds for it.
fn claim_all(
    alloc: Global,
    batch: &Due,
    book: &mut BookState,
    seats: &mut [Seat],
    alone: &mut Planner,
) -> Result<(), AllocError>
    requires capacity { book.old.capacity ≡ capacity_of batch.now.asked.now.design.now }
    requires some { 0 < length seats.old }
    requires plans { HavePlans batch.now.asked.now.design.now batch.now.asked.now.rule.now.formula batch.now.round
        book.old.history batch.now.nets.now 0 seats.old }
    ensures capacity { OnOk result (book.new.capacity ≡ capacity_of batch.now.asked.now.design.now) }
    ensures turns { OnOk result (AreTurns (batching_of batch.now.asked.now) batch.now.round book.old.history
        batch.now.nets.now book.old.history book.new.history) }
{
    let front = book.history().len();
    for place in 0..batch.nets.len() {
        let plan = take_plan(seats, place);
        let net = batch.nets[place];
        claim_net(
            alloc,
            batch.asked,
            batch.round,
            net,
            plan,
            front,
            book,
            alone,
        )?;
    }
    Ok(())
}
