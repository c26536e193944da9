//! The rounds, one after another.
ghost use Rattle.std.specs.Prelude.{◌≡◌, IfOk, OnOk};
ghost use Rattle.grid_demand.specs.Tables.{capacity_of};
ghost use Rattle.book_state.specs.Books.{victims, IsLegal};
ghost use Rattle.book_state.specs.declared.entry.Call.TheVariants.{Mark};
ghost use Rattle.run_histories.specs.Rounds.{marker};
ghost use Rattle.batch_rounds.specs.BatchedHistories.{after_call, claims_given, nets_due, AreBatches, IsRound, IsBatched};
ghost use Rattle.batch_rounds.specs.Rounds.{batching_of};

use crate::asked::{Asked, Due};
use crate::batch::run_batch;
use crate::means::Means;
use crate::seats::Seats;
use book_state::{BookState, Reply};
use gr_base::Cells;
use run_histories::{Gate, MARKER, Stop, open_nets};
use std::alloc::AllocError;
use std::sync::Wait;
use std::thread::Threads;

/// The rounds over a book with the claims of given trees. The only error is want of memory.
pub(crate) fn run_rounds<R: Threads + Wait + Sync, G: Gate + Sync>(
    means: &Means<R, G>,
    asked: &Asked,
    book: &mut BookState,
    seats: &mut Seats,
) -> Result<(), AllocError>
    requires capacity { book.old.capacity ≡ capacity_of asked.now.design.now }
    requires given { book.old.history ≡ claims_given (batching_of asked.now) }
    ensures capacity { OnOk result (book.new.capacity ≡ capacity_of asked.now.design.now) }
    ensures legal { OnOk result (IsLegal book.new.capacity book.new.history) }
    ensures batched { OnOk result (IsBatched (batching_of asked.now) book.new.history) }
{
    let nets = open_nets(means.alloc, asked.design, asked.given)?;
    let first = Due {
        asked: &*asked,
        round: 0,
        nets: &nets,
    };
    let mut victims = run_round(means, &first, book, seats)?;
    for done in 0..asked.rounds {
        if victims.as_slice().is_empty() {
            return Ok(());
        }
        let next = Due {
            asked: &*asked,
            round: done + 1,
            nets: victims.as_slice(),
        };
        victims = run_round(means, &next, book, seats)?;
    }
    Ok(())
}

/// The round of the nets that are due after the book's history, up to and with its mark, and the victims at
/// that.
fn run_round<R: Threads + Wait + Sync, G: Gate + Sync>(
    means: &Means<R, G>,
    due: &Due,
    book: &mut BookState,
    seats: &mut Seats,
) -> Result<Cells, AllocError>
    requires capacity { book.old.capacity ≡ capacity_of due.now.asked.now.design.now }
    requires due { due.now.nets.now ≡ nets_due (batching_of due.now.asked.now) due.now.round book.old.history }
    ensures capacity { OnOk result (book.new.capacity ≡ capacity_of due.now.asked.now.design.now) }
    ensures legal { OnOk result (IsLegal book.new.capacity book.new.history) }
    ensures round { OnOk result
        (IsRound (batching_of due.now.asked.now) due.now.round book.old.history book.new.history) }
    ensures victims { IfOk result
        (λ nets. nets ≡ victims (capacity_of due.now.asked.now.design.now) book.new.history) }
{
    run_batches(means, due, book, seats)?;
    book.find_overfull(means.rt, means.threads)?;
    let overflow = mark(book)?;
    let victims = book.victims_by(means.rt, means.threads)?;
    let next = if due.round < due.asked.rounds {
        victims.as_slice().len() as u64
    } else {
        0
    };
    let stop = Stop::Marked {
        round: due.round,
        overflow,
        due: next,
    };
    means.gate.pass(means.rt, MARKER, stop);
    Ok(victims)
}

/// Marks the edges over their capacity. The result is the total overflow.
fn mark(book: &mut BookState) -> Result<u128, AllocError>
    ensures capacity { OnOk result (book.new.capacity ≡ book.old.capacity) }
    ensures legal { OnOk result (IsLegal book.new.capacity book.new.history) }
    ensures history { OnOk result
        (book.new.history ≡ after_call book.old.capacity book.old.history marker Mark) }
{
    let Reply::Marked { overflow } = book.mark(MARKER)? else {
        unreachable!()
    };
    Ok(overflow)
}

/// The batches of these nets, one after another.
fn run_batches<R: Threads + Wait + Sync, G: Gate + Sync>(
    means: &Means<R, G>,
    due: &Due,
    book: &mut BookState,
    seats: &mut Seats,
) -> Result<(), AllocError>
    requires { book.old.capacity ≡ capacity_of due.now.asked.now.design.now }
    ensures capacity { OnOk result (book.new.capacity ≡ capacity_of due.now.asked.now.design.now) }
    ensures batches { OnOk result (AreBatches (batching_of due.now.asked.now) due.now.round due.now.nets.now
        book.old.history book.new.history) }
{
    for nets in due.nets.chunks(due.asked.batch as usize) {
        let batch = Due {
            asked: due.asked,
            round: due.round,
            nets,
        };
        run_batch(means, &batch, book, seats)?;
    }
    Ok(())
}
