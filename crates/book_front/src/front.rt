//! What the seats of a front do.
ghost use Rattle.std.specs.Prelude.{◌≡◌, true, ◌^◌, ◌<◌, ◌≤◌, [], ◌∷◌, ◌++◌, length, All, IfOk};
ghost use mathlib.Core.List.{IsPrefix};
ghost use Rattle.book_front.specs.Seats.{word_of, knows, IsKeeper, IsPass, IsSame, HasAppended, AreFresh, AreAll, AreIn};
ghost use Rattle.book_front.specs.Views.{with_pass, new_pass, with_role, without_role, role_of, with_ended};
ghost use Rattle.book_state.specs.Entries.{calls_of};

use crate::plays::{Append, EndPass, Finish, GiveRole, Look, NewPass, Said, TakeRole};
use crate::seat::{Front, PassSeat};
use atomic_table::Table;
use book_state::Entry;
use std::alloc::{AllocError, Global};
use std::marker::Brand;

impl Front {
    /// A word with an empty history, the keeper's seat, and from 1 to 64 seats of passes with the
    /// numbers from 0. The only error is want of memory.
    pub fn new(alloc: Global, passes: u32) -> Result<(Front, PassSeat, Vec<PassSeat>), AllocError>
        requires some { 1 ≤ passes }
        requires few { passes ≤ 64 }
        ensures { IfOk result (λ r. AreFresh (word_of r.0) passes r.1 r.2.items) }
    {
        let mut seats = Vec::with_capacity(alloc, passes as usize)?;
        let (front, mut keeper) = Front::alone(alloc)?;
        for _ in 0..passes {
            seats.push_reserved(front.split(&mut keeper));
        }
        Ok((front, keeper, seats))
    }

    /// A word with its keeper.
    fn alone(alloc: Global) -> Result<(Front, PassSeat), AllocError>
        ensures keeper { IfOk result (λ r. IsKeeper (word_of r.0) r.1) }
        ensures list { IfOk result (λ r. (knows r.1).seen ≡ []) }
        ensures made { IfOk result (λ r. (knows r.1).made ≡ 0) }
    {
        let (table, seat) = Table::of_words(alloc, &[0], &())?;
        Ok((Front { table }, PassSeat { seat }))
    }

    /// The seat of a pass with the next number, which has seen the keeper's list.
    fn split(&self, keeper: &mut PassSeat) -> PassSeat
        requires { IsKeeper (word_of self.now) keeper.old }
        ensures keeper { knows keeper.new ≡ with_pass (knows keeper.old) }
        ensures pass { knows result ≡ new_pass (knows keeper.old) }
        ensures keeper_word { keeper.new.seat.table_id ≡ word_of self.now }
        ensures pass_word { result.seat.table_id ≡ word_of self.now }
    {
        PassSeat {
            seat: self.table.shared.split_seat::<NewPass>(&mut keeper.seat),
        }
    }

    /// The pass adds an entry of its number to the history, of which it then has seen all. Both
    /// seats come back.
    pub fn append(&self, keeper: PassSeat, seat: PassSeat, entry: &Entry) -> (PassSeat, PassSeat)
        requires keeper { IsKeeper (word_of self.now) keeper }
        requires pass { IsPass (word_of self.now) seat }
        requires number { entry.now.number ≡ (knows seat).number }
        requires few { length (knows keeper).seen < 2 ^ 62 }
        ensures keeper { IsKeeper (word_of self.now) result.0 }
        ensures pass { IsSame (word_of self.now) seat result.1 }
        ensures old { IsPrefix (knows seat).seen (knows keeper).seen }
        ensures seen { (knows result.1).seen ≡ (knows keeper).seen ++ entry.now ∷ [] }
        ensures mine { (knows result.1).mine ≡ (knows seat).mine ++ entry.now ∷ [] }
        ensures calls { (knows result.1).mine ≡ calls_of (knows seat).number (knows result.1).seen }
        ensures list { (knows result.0).seen ≡ (knows result.1).seen }
        ensures made { (knows result.0).made ≡ (knows keeper).made }
    {
        self.append_named::<Brand>(keeper, seat, entry)
    }

    fn append_named<E: Said>(
        &self,
        keeper: PassSeat,
        mut seat: PassSeat,
        entry: &Entry,
    ) -> (PassSeat, PassSeat)
        requires keeper { IsKeeper (word_of self.now) keeper }
        requires pass { IsPass (word_of self.now) seat }
        requires number { entry.now.number ≡ (knows seat).number }
        requires few { length (knows keeper).seen < 2 ^ 62 }
        requires entry { entry.now ≡ E.entry }
        ensures { HasAppended (word_of self.now) keeper seat entry.now result }
    {
        self.take_role(&mut seat, keeper);
        self.table
            .shared
            .fetch_add::<Append<E>>(&mut seat.seat, 0, 1);
        let keeper = self.give_role(&mut seat);
        (keeper, seat)
    }

    /// The pass sees the keeper's list. Both seats come back.
    pub fn learn(&self, keeper: PassSeat, mut seat: PassSeat) -> (PassSeat, PassSeat)
        requires keeper { IsKeeper (word_of self.now) keeper }
        requires pass { IsPass (word_of self.now) seat }
        ensures keeper { IsKeeper (word_of self.now) result.0 }
        ensures pass { IsSame (word_of self.now) seat result.1 }
        ensures old { IsPrefix (knows seat).seen (knows keeper).seen }
        ensures seen { (knows result.1).seen ≡ (knows keeper).seen }
        ensures mine { (knows result.1).mine ≡ (knows seat).mine }
        ensures calls { (knows result.1).mine ≡ calls_of (knows seat).number (knows result.1).seen }
        ensures list { (knows result.0).seen ≡ (knows keeper).seen }
        ensures made { (knows result.0).made ≡ (knows keeper).made }
    {
        self.take_role(&mut seat, keeper);
        self.table.shared.load::<Look>(&mut seat.seat, 0);
        let keeper = self.give_role(&mut seat);
        (keeper, seat)
    }

    /// How many entries there are: at least as many as the pass has seen.
    pub fn count(&self, seat: &mut PassSeat) -> u64
        requires { IsPass (word_of self.now) seat.old }
        ensures word { seat.new.seat.table_id ≡ seat.old.seat.table_id }
        ensures same { knows seat.new ≡ knows seat.old }
        ensures count { length (knows seat.old).seen ≤ result }
    {
        self.table.shared.load::<Look>(&mut seat.seat, 0)
    }

    /// Ends all passes, which are given by number, and answers how many entries there are: those of
    /// the keeper's list, of which each is an entry of one of the passes.
    pub fn finish(self, mut keeper: PassSeat, seats: Vec<PassSeat>) -> u64
        requires keeper { IsKeeper (word_of self) keeper }
        requires seats { AreAll (word_of self) (knows keeper).made seats.items }
        ensures count { result ≡ length (knows keeper).seen }
        ensures passes { AreIn (knows keeper).seen seats.items }
        ensures numbers { All (λ e. e.number < length seats.items) (knows keeper).seen }
    {
        let mut rest = seats.into_iter();
        while let Some(seat) = rest.next() {
            self.end(&mut keeper, seat);
        }
        self.table.shared.load::<Finish>(&mut keeper.seat, 0)
    }

    /// The pass takes the keeper's role, and then has seen what the keeper has.
    fn take_role(&self, seat: &mut PassSeat, keeper: PassSeat)
        requires pass { IsPass (word_of self.now) seat.old }
        requires keeper { IsKeeper (word_of self.now) keeper }
        ensures word { seat.new.seat.table_id ≡ word_of self.now }
        ensures role { knows seat.new ≡ with_role (knows seat.old) (knows keeper) }
    {
        let table = &self.table.shared;
        table.join_seat::<TakeRole>(&mut seat.seat, keeper.seat);
    }

    /// The pass gives the keeper's role back.
    fn give_role(&self, seat: &mut PassSeat) -> PassSeat
        requires pass { IsPass (word_of self.now) seat.old }
        requires role { (knows seat.old).keeps ≡ true }
        ensures word { seat.new.seat.table_id ≡ word_of self.now }
        ensures pass { knows seat.new ≡ without_role (knows seat.old) }
        ensures keeper_word { result.seat.table_id ≡ word_of self.now }
        ensures keeper { knows result ≡ role_of (knows seat.old) }
    {
        PassSeat {
            seat: self.table.shared.split_seat::<GiveRole>(&mut seat.seat),
        }
    }

    /// The pass ends, and the keeper remembers what it knew.
    fn end(&self, keeper: &mut PassSeat, seat: PassSeat)
        requires keeper { IsKeeper (word_of self.now) keeper.old }
        requires pass { IsPass (word_of self.now) seat }
        ensures word { keeper.new.seat.table_id ≡ word_of self.now }
        ensures keeper { knows keeper.new ≡ with_ended (knows keeper.old) (knows seat) }
    {
        let table = &self.table.shared;
        table.join_seat::<EndPass>(&mut keeper.seat, seat.seat);
    }
}
