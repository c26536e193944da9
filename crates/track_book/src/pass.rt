//! Passes: who calls a shared book.
ghost use Rattle.std.specs.Prelude.{◌≡◌, ◌↔◌, ℕ, ◌≤◌, [], length, take, IfOk, IsTrue};
ghost use mathlib.Core.List.{IsPrefix};
ghost use Rattle.book_front.specs.Seats.{word_of, knows, IsPassOf, IsNew as IsNewSeat};
ghost use Rattle.track_book.specs.Passes.{IsPass, IsNew, AreBegun};
ghost use Rattle.track_book.specs.SeatOptions.{AreNewSeats};

use crate::name::BookName;
use book_front::{Front, PassSeat};
use book_state::Past;
use std::alloc::{AllocError, Global};
use std::marker::{Model, PhantomData};

/// One caller of the book N. What it has seen of the history is a legal history, and stays a first
/// part of it whatever other passes do meanwhile.
#[derive(Drop)]
pub struct Pass<N: BookName> {
    pub(crate) number: u32,
    pub(crate) known: u64,
    pub(crate) seat: Option<PassSeat>,
    pub(crate) past: Past,
    of: PhantomData<N>,
}

impl<N: BookName> Model for Pass<N> {
    ghost use Rattle.track_book.specs.Passes.{PassView};
    ghost use Rattle.track_book.specs.Stores.{pass_of, KeepsPass};

    ghost Value = { PassView };

    ghost view = { λ p. pass_of p.number p.known p.seat p.past };

    ghost invariant = { λ p. KeepsPass N.word N.capacity p.number p.known p.seat p.past };
}

impl<N: BookName> Pass<N> {
    /// A pass that has seen nothing.
    pub(crate) fn new(alloc: Global, number: u32, seat: PassSeat) -> Pass<N>
        requires { IsNewSeat N.word number seat }
        ensures { IsNew number result }
    {
        Pass {
            number,
            known: 0,
            seat: Some(seat),
            past: Past::new(alloc),
            of: PhantomData,
        }
    }

    /// The number under which the pass's calls stand in the history.
    pub fn number(&self) -> u32
        ensures number { result ≡ self.now.number }
        ensures pass { IsPass N.capacity self.now }
    {
        self.number
    }

    /// The length of the first part of the history that the pass has seen.
    pub fn known(&self) -> u64
        ensures known { result ≡ length self.now.seen }
        ensures pass { IsPass N.capacity self.now }
    {
        self.known
    }

    /// Whether the pass holds itself all that it has seen, so that replicas can read it.
    pub fn holds_all(&self) -> bool
        ensures { IsTrue result ↔ (self.now.held ≡ length self.now.seen) }
    {
        self.past.len() == self.known
    }

    /// Lets go of holds that the pass needs no more. The book's own `claim`, `release` and `hold` do so;
    /// those of a visit leave it to the caller, for it takes a while.
    pub fn let_go(&mut self)
        ensures { self.new ≡ self.old }
    {
        self.past.let_go();
    }

    /// What the pass holds itself of what it has seen.
    pub fn past(&self) -> &Past
        ensures past { result.now ≡ take self.now.held self.now.seen }
        ensures pass { IsPass N.capacity self.now }
    {
        &self.past
    }

    /// How many entries the history has, at least.
    pub(crate) fn count(&mut self, front: &Front) -> u64
        requires { word_of front.now ≡ N.word }
        ensures count { length self.old.seen ≤ result }
        ensures same { self.new ≡ self.old }
    {
        let Some(seat) = &mut self.seat else {
            unreachable!()
        };
        front.count(seat)
    }

    /// The pass's seat, which has seen at least what the pass has.
    pub(crate) fn into_seat(self) -> PassSeat
        ensures pass { IsPassOf N.word self.number result }
        ensures begins { IsPrefix self.seen (knows result).seen }
        ensures mine { (knows result).mine ≡ self.mine }
    {
        let Pass {
            number: _,
            known: _,
            seat,
            past: _,
            of: _,
        } = self;
        let Some(seat) = seat else { unreachable!() };
        seat
    }
}

/// The passes of these seats.
pub(crate) fn passes_of<N: BookName>(
    alloc: Global,
    seats: Vec<PassSeat>,
) -> Result<Vec<Pass<N>>, AllocError>
    requires few { length seats.items ≤ 64 }
    requires each { AreNewSeats N.word seats.items }
    ensures { IfOk result (λ passes. AreBegun (length seats.items) passes.items) }
{
    let mut passes = Vec::with_capacity(alloc, seats.len())?;
    let mut rest = seats.into_iter();
    while let Some(seat) = rest.next() {
        passes.push_reserved(Pass::new(alloc, passes.len() as u32, seat));
    }
    Ok(passes)
}
