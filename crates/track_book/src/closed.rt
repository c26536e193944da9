//! Books that are closed.
ghost use Rattle.std.specs.Prelude.{◌≡◌, ◌≤◌, [], length};
ghost use Rattle.std.specs.Vec.{vec_capacity};
ghost use Rattle.book_front.specs.Seats.{word_of};
ghost use Rattle.track_book.specs.Passes.{AreAll, IsClosed};

use crate::locked::Locked;
use crate::name::BookName;
use crate::pass::Pass;
use book_front::{Front, PassSeat};
use book_state::BookState;

/// What is left of a shared book when all its passes have ended: a book for one thread.
#[derive(Debug, Drop)]
pub struct ClosedBook {
    pub(crate) state: BookState,
}

impl ClosedBook {
    /// A book of one thread, closed.
    pub fn of(state: BookState) -> ClosedBook
        ensures { result.state ≡ state }
    {
        ClosedBook { state }
    }

    /// The book.
    pub fn state(&self) -> &BookState
        ensures { result.now ≡ self.now.state }
    {
        &self.state
    }
}

/// Closes a book whose passes are these. The seats are empty, with room for as many as there are
/// passes.
pub(crate) fn close<N: BookName>(
    front: Front,
    locked: Locked<N>,
    passes: Vec<Pass<N>>,
    mut seats: Vec<PassSeat>,
) -> ClosedBook
    requires front { word_of front ≡ N.word }
    requires passes { AreAll N.passes passes.items }
    requires seats { seats.items ≡ [] }
    requires room { length passes.items ≤ vec_capacity seats }
    ensures book { IsClosed N.capacity passes.items result.state.history }
    ensures capacity { result.state.capacity ≡ N.capacity }
{
    let mut rest = passes.into_iter();
    while let Some(pass) = rest.next() {
        seats.push_reserved(pass.into_seat());
    }
    let (state, keeper) = locked.into_parts();
    front.finish(keeper, seats);
    ClosedBook { state }
}
