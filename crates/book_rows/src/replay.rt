//! Histories that are called again.
ghost use Rattle.std.specs.Prelude.{length, IfOk};
ghost use Rattle.book_state.specs.Books.{IsCall, IsClaim, IsLegal};
ghost use Rattle.grid_demand.specs.Tables.{capacity_of};
ghost use Rattle.book_rows.specs.Rows.{HasOneMore};

use book_state::{BookState, Call, Claim, Entry, History, Reply};
use gr_base::Design;
use std::alloc::{AllocError, Global};

/// Whether a book for one thread answers each call of a history as the history says.
pub(crate) fn is_replayed(
    alloc: Global,
    design: &Design,
    history: &History,
) -> Result<bool, AllocError>
    requires { IsLegal (capacity_of design.now) history.now }
{
    let mut book = BookState::new(alloc, design)?;
    for at in 0..history.len() {
        let entry = history.entry(at);
        if call(alloc, &mut book, entry)? != entry.reply {
            return Ok(false);
        }
    }
    Ok(true)
}

/// The book's reply to the call of an entry.
fn call(alloc: Global, book: &mut BookState, entry: &Entry) -> Result<Reply, AllocError>
    requires { IsCall book.old.capacity (length book.old.history) entry.now.call }
    ensures { IfOk result (λ reply. HasOneMore book.old book.new) }
{
    match &entry.call {
        Call::Claim(the_claim) => claim(alloc, book, entry.number, the_claim),
        Call::Release { net } => book.release(entry.number, *net),
        Call::Mark => book.mark(entry.number),
    }
}

fn claim(
    alloc: Global,
    book: &mut BookState,
    number: u32,
    claim: &Claim,
) -> Result<Reply, AllocError>
    requires { IsClaim book.old.capacity (length book.old.history) claim.now }
    ensures { IfOk result (λ reply. HasOneMore book.old book.new) }
{
    let again = Claim {
        net: claim.net,
        tree: claim.tree.copy(alloc)?,
        slack: claim.slack,
        front: claim.front,
        kind: claim.kind,
    };
    let Ok(reply) = book.claim(number, again) else {
        return Err(AllocError);
    };
    Ok(reply)
}
