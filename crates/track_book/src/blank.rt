//! Books that aren't begun.
ghost use Rattle.std.specs.Prelude.{◌≡◌, ◌≤◌, [], IfOk};
ghost use Rattle.grid_demand.specs.Tables.{capacity_of};
ghost use Rattle.track_book.specs.Passes.{AreBegun};

use crate::book::TrackBook;
use crate::locked::Locked;
use crate::name::BookName;
use crate::pass::{Pass, passes_of};
use book_front::{Front, PassSeat};
use book_state::BookState;
use gr_base::Design;
use grid_demand::Capacity;
use std::alloc::{AllocError, Global};
use std::marker::Model;
use std::sync::{Arc, Mutex};

/// A book that isn't begun, and has no name in its type yet.
#[derive(Drop)]
pub struct Blank {
    front: Front,
    keeper: PassSeat,
    seats: Vec<PassSeat>,
    state: BookState,
    capacity: Arc<Capacity>,
    passes: u32,
}

impl Model for Blank {
    ghost use Rattle.track_book.specs.Passes.{BlankView};

    ghost Value = { BlankView };

    ghost use Rattle.track_book.specs.BlankStore.{seen, Keeps};

    ghost view = { seen };

    ghost invariant = { Keeps };
}

impl Blank {
    /// A book of a design, with from 1 to 64 passes. The only error is want of memory.
    pub fn new(alloc: Global, design: &Design, passes: u32) -> Result<Blank, AllocError>
        requires some { 1 ≤ passes }
        requires few { passes ≤ 64 }
        ensures capacity { IfOk result (λ blank. blank.capacity ≡ capacity_of design.now) }
        ensures passes { IfOk result (λ blank. blank.passes ≡ passes) }
    {
        let state = BookState::new(alloc, design)?;
        let capacity = state.shared_capacity()?;
        let (front, keeper, seats) = Front::new(alloc, passes)?;
        Ok(Blank {
            front,
            keeper,
            seats,
            state,
            capacity,
            passes,
        })
    }

    /// Begins the book under the name N. The passes have the numbers from 0. The only error is want
    /// of memory, and the blank is then given up.
    pub fn begin<N: BookName>(
        self,
        alloc: Global,
    ) -> Result<(TrackBook<N>, Vec<Pass<N>>), AllocError>
        requires word { self.word ≡ N.word }
        requires capacity { self.capacity ≡ N.capacity }
        requires passes { self.passes ≡ N.passes }
        ensures { IfOk result (λ begun. AreBegun N.passes begun.1.items) }
    {
        let passes = passes_of(alloc, self.seats)?;
        let book = TrackBook {
            front: self.front,
            capacity: self.capacity,
            lock: Mutex::new(Locked::new(self.state, self.keeper)),
        };
        Ok((book, passes))
    }
}
