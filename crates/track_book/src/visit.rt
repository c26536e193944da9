//! Several calls of a shared book under one hold of its lock.
ghost use Rattle.std.specs.Prelude.{◌≡◌, ◌<◌, ◌≤◌, length, IfOk, OnOk, OnErr};
ghost use Rattle.book_state.specs.Books.{nets_of, IsClaim};
ghost use Rattle.track_book.specs.Passes.{IsAnswered, IsClaimMade, HasLearnt};

use crate::book::TrackBook;
use crate::locked::Locked;
use crate::name::BookName;
use crate::pass::Pass;
use book_state::{Call, Claim, ClaimRefused, Reply};
use grid_demand::Capacity;
use std::alloc::AllocError;
use std::sync::{MutexGuard, Wait};

/// A caller's visit to the book N. Once it has entered, it holds the book's lock until it leaves or
/// ends. That no entry of others then comes between its calls rests on the lock alone, and is in no
/// clause. Outside, each call takes the lock for itself.
#[derive(Drop)]
pub struct Visit<'a, N: BookName> {
    book: &'a TrackBook<N>,
    locked: Option<MutexGuard<'a, Locked<N>>>,
}

impl<'a, N: BookName> Visit<'a, N> {
    /// A visit that hasn't entered.
    pub fn new(book: &'a TrackBook<N>) -> Visit<'a, N> {
        Visit { book, locked: None }
    }

    /// The capacity of the book's design.
    pub fn capacity(&self) -> &Capacity
        ensures { result.now ≡ N.capacity }
    {
        self.book.capacity()
    }

    /// Takes the lock, where the visit doesn't hold it, and may wait for it.
    pub fn enter<R: Wait>(&mut self, rt: &R) {
        if self.locked.is_none() {
            self.locked = Some(self.book.locked(rt));
        }
    }

    /// Gives the lock back, where the visit holds it.
    pub fn leave(&mut self) {
        self.locked = None;
    }

    /// Books a net with a tree, as the book's own `claim` does.
    pub fn claim<R: Wait>(
        &mut self,
        rt: &R,
        pass: &mut Pass<N>,
        claim: Claim,
    ) -> Result<Reply, ClaimRefused>
        requires { IsClaim N.capacity (length pass.old.seen) claim }
        ensures { IsClaimMade N.capacity pass.old pass.new claim result }
    {
        let Some(locked) = &mut self.locked else {
            return self.book.claim(rt, pass, claim);
        };
        locked.claim(&self.book.front, pass, claim)
    }

    /// Frees a booked net, as the book's own `release` does.
    pub fn release<R: Wait>(
        &mut self,
        rt: &R,
        pass: &mut Pass<N>,
        net: u32,
    ) -> Result<Reply, AllocError>
        requires { net < nets_of N.capacity }
        ensures reply { IfOk result (λ reply. IsAnswered N.capacity pass.old pass.new (Call.Release net) reply) }
        ensures err { OnErr result (pass.new ≡ pass.old) }
    {
        let Some(locked) = &mut self.locked else {
            return self.book.release(rt, pass, net);
        };
        locked.release(&self.book.front, pass, net)
    }

    /// The pass sees the whole history, and holds it, as by the book's own `hold`.
    pub fn hold<R: Wait>(&mut self, rt: &R, pass: &mut Pass<N>) -> Result<(), AllocError>
        ensures learnt { OnOk result (HasLearnt N.capacity pass.old pass.new) }
        ensures held { OnOk result (pass.new.held ≡ length pass.new.seen) }
        ensures err { OnErr result (pass.new ≡ pass.old) }
    {
        let Some(locked) = &mut self.locked else {
            return self.book.hold(rt, pass);
        };
        locked.sync(&self.book.front, pass)
    }

    /// How many entries the history has, at least. It waits for nobody.
    pub fn front(&self, pass: &mut Pass<N>) -> u64
        ensures front { length pass.old.seen ≤ result }
        ensures same { pass.new ≡ pass.old }
    {
        self.book.front(pass)
    }
}
