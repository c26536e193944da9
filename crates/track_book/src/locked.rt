//! What lies under the lock of a shared book.
ghost use Rattle.std.specs.Prelude.{◌≡◌, ◌<◌, [], ◌++◌, length, take, drop, IfOk, IfErr, OnOk, OnErr};
ghost use mathlib.Core.List.{IsPrefix};
ghost use Rattle.book_front.specs.Seats.{word_of, knows, IsKeeper};
ghost use Rattle.book_state.specs.Books.{nets_of, IsClaim, IsLegal, victims as victims_of};
ghost use Rattle.book_state.specs.Replicas.{StandsFor};
ghost use Rattle.track_book.specs.Passes.{IsPass, IsAnswered, HasLearnt, with_answer};
ghost use Rattle.track_book.specs.SeatOptions.{view_in, HasKeeper, HasNext};

use crate::name::BookName;
use crate::pass::Pass;
use crate::seats::{append, learn};
use book_front::{Front, PassSeat};
use book_state::{BookState, Call, Claim, ClaimRefused, History, Replica, Reply};
use gr_base::Cells;
use std::alloc::AllocError;
use std::marker::{Model, PhantomData};
use std::thread::Threads;

/// The book for one thread, and the seat of the history's keeper.
#[derive(Drop)]
pub(crate) struct Locked<N: BookName> {
    state: BookState,
    keeper: Option<PassSeat>,
    of: PhantomData<N>,
}

impl<N: BookName> Model for Locked<N> {
    ghost use Rattle.std.specs.Prelude.{List};
    ghost use Rattle.book_state.specs.declared.entry.Entry.{Entry};
    ghost use Rattle.track_book.specs.Stores.{KeepsBook};

    ghost Value = { List Entry };

    ghost view = { λ l. l.state.history };

    ghost invariant = { λ l. KeepsBook N.word N.capacity N.passes l.keeper l.state };
}

impl<N: BookName> Locked<N> {
    /// A book without entries.
    pub(crate) fn new(state: BookState, keeper: PassSeat) -> Locked<N>
        requires keeper { IsKeeper N.word keeper }
        requires made { (knows keeper).made ≡ N.passes }
        requires seen { (knows keeper).seen ≡ [] }
        requires capacity { state.capacity ≡ N.capacity }
        requires history { state.history ≡ [] }
        requires legal { IsLegal state.capacity state.history }
        ensures { result ≡ [] }
    {
        Locked {
            state,
            keeper: Some(keeper),
            of: PhantomData,
        }
    }

    /// Answers a claim, of which the pass then has the entry. The pass holds what it has seen, as far as
    /// there is memory for that.
    pub(crate) fn claim(
        &mut self,
        front: &Front,
        pass: &mut Pass<N>,
        claim: Claim,
    ) -> Result<Reply, ClaimRefused>
        requires front { word_of front.now ≡ N.word }
        requires claim { IsClaim N.capacity (length pass.old.seen) claim }
        ensures reply { IfOk result (λ reply. IsAnswered N.capacity pass.old pass.new (Call.Claim claim) reply) }
        ensures entry { IfOk result (λ reply. self.new ≡ with_answer self.old pass.old.number (Call.Claim claim) reply) }
        ensures err { OnErr result (self.new ≡ self.old) }
        ensures pass { OnErr result (pass.new ≡ pass.old) }
        ensures back { IfErr result (λ refused. refused.claim ≡ claim) }
    {
        self.look(front, pass);
        let reply = self.state.claim(pass.number, claim)?;
        write(front, self.state.history(), &mut self.keeper, pass);
        hold(self.state.history(), pass);
        Ok(reply)
    }

    /// Answers a release. The pass holds what it has seen, as far as there is memory for that.
    pub(crate) fn release(
        &mut self,
        front: &Front,
        pass: &mut Pass<N>,
        net: u32,
    ) -> Result<Reply, AllocError>
        requires front { word_of front.now ≡ N.word }
        requires net { net < nets_of N.capacity }
        ensures reply { IfOk result (λ reply. IsAnswered N.capacity pass.old pass.new (Call.Release net) reply) }
        ensures entry { IfOk result (λ reply. self.new ≡ with_answer self.old pass.old.number (Call.Release net) reply) }
        ensures err { OnErr result (self.new ≡ self.old) }
        ensures pass { OnErr result (pass.new ≡ pass.old) }
    {
        let reply = self.state.release(pass.number, net)?;
        write(front, self.state.history(), &mut self.keeper, pass);
        hold(self.state.history(), pass);
        Ok(reply)
    }

    /// Answers a mark.
    pub(crate) fn mark(&mut self, front: &Front, pass: &mut Pass<N>) -> Result<Reply, AllocError>
        requires front { word_of front.now ≡ N.word }
        ensures reply { IfOk result (λ reply. IsAnswered N.capacity pass.old pass.new Call.Mark reply) }
        ensures entry { IfOk result (λ reply. self.new ≡ with_answer self.old pass.old.number Call.Mark reply) }
        ensures err { OnErr result (self.new ≡ self.old) }
        ensures pass { OnErr result (pass.new ≡ pass.old) }
    {
        let reply = self.state.mark(pass.number)?;
        write(front, self.state.history(), &mut self.keeper, pass);
        Ok(reply)
    }

    /// Looks for the edges over their capacity, by at most so many threads.
    pub(crate) fn find_overfull<R: Threads + Sync>(
        &mut self,
        rt: &R,
        threads: u32,
    ) -> Result<(), AllocError>
        requires { 0 < threads }
        ensures { self.new ≡ self.old }
    {
        self.state.find_overfull(rt, threads)
    }

    /// The pass sees the whole history, and holds it. An error leaves the pass as it was.
    pub(crate) fn sync(&mut self, front: &Front, pass: &mut Pass<N>) -> Result<(), AllocError>
        requires front { word_of front.now ≡ N.word }
        ensures same { self.new ≡ self.old }
        ensures learnt { OnOk result (HasLearnt N.capacity pass.old pass.new) }
        ensures seen { OnOk result (pass.new.seen ≡ self.old) }
        ensures held { OnOk result (pass.new.held ≡ length pass.new.seen) }
        ensures err { OnErr result (pass.new ≡ pass.old) }
    {
        learn(front, &mut self.keeper, &mut pass.seat);
        self.state.history().extend(&mut pass.past)?;
        pass.known = self.state.history().len();
        Ok(())
    }

    /// The pass sees the whole history, and gets the victims after it. An error leaves the pass as it
    /// was.
    pub(crate) fn victims<R: Threads + Sync>(
        &mut self,
        rt: &R,
        front: &Front,
        pass: &mut Pass<N>,
        threads: u32,
    ) -> Result<Cells, AllocError>
        requires front { word_of front.now ≡ N.word }
        requires threads { 0 < threads }
        ensures same { self.new ≡ self.old }
        ensures learnt { OnOk result (HasLearnt N.capacity pass.old pass.new) }
        ensures seen { OnOk result (pass.new.seen ≡ self.old) }
        ensures victims { IfOk result (λ nets. nets ≡ victims_of N.capacity self.old) }
        ensures err { OnErr result (pass.new ≡ pass.old) }
    {
        let victims = self.state.victims_by(rt, threads)?;
        self.show(front, pass);
        Ok(victims)
    }

    /// Both passes see the whole history.
    pub(crate) fn meet(&mut self, front: &Front, one: &mut Pass<N>, other: &mut Pass<N>)
        requires front { word_of front.now ≡ N.word }
        ensures same { self.new ≡ self.old }
        ensures one { HasLearnt N.capacity one.old one.new }
        ensures other { HasLearnt N.capacity other.old other.new }
        ensures one_seen { one.new.seen ≡ self.old }
        ensures other_seen { other.new.seen ≡ self.old }
        ensures knew { (IsPass N.capacity one.old) × (IsPass N.capacity other.old) }
        ensures know { (IsPass N.capacity one.new) × (IsPass N.capacity other.new) }
    {
        self.show(front, one);
        self.show(front, other);
    }

    /// The same, and the replica comes to stand for the whole history.
    pub(crate) fn meet_and_bring_up(
        &mut self,
        front: &Front,
        one: &mut Pass<N>,
        other: &mut Pass<N>,
        replica: &mut Replica,
    )
        requires front { word_of front.now ≡ N.word }
        requires stands { StandsFor N.capacity (take replica.old.front other.old.seen) replica.old }
        ensures same { self.new ≡ self.old }
        ensures one { HasLearnt N.capacity one.old one.new }
        ensures other { HasLearnt N.capacity other.old other.new }
        ensures one_seen { one.new.seen ≡ self.old }
        ensures other_seen { other.new.seen ≡ self.old }
        ensures knew { (IsPass N.capacity one.old) × (IsPass N.capacity other.old) }
        ensures know { (IsPass N.capacity one.new) × (IsPass N.capacity other.new) }
        ensures stands { StandsFor N.capacity self.old replica.new }
    {
        self.meet(front, one, other);
        self.state.bring_up(replica);
    }

    /// The pass sees the whole history.
    fn show(&mut self, front: &Front, pass: &mut Pass<N>)
        requires front { word_of front.now ≡ N.word }
        ensures same { self.new ≡ self.old }
        ensures learnt { HasLearnt N.capacity pass.old pass.new }
        ensures seen { pass.new.seen ≡ self.old }
        ensures knew { IsPass N.capacity pass.old }
        ensures know { IsPass N.capacity pass.new }
    {
        learn(front, &mut self.keeper, &mut pass.seat);
        pass.known = self.state.history().len();
    }

    /// Shows that what the pass has seen begins the history.
    fn look(&mut self, front: &Front, pass: &mut Pass<N>)
        requires front { word_of front.now ≡ N.word }
        ensures same { self.new ≡ self.old }
        ensures pass { pass.new ≡ pass.old }
        ensures begins { IsPrefix pass.old.seen self.old }
    {
        learn(front, &mut self.keeper, &mut pass.seat);
    }

    /// The book and the keeper's seat.
    pub(crate) fn into_parts(self) -> (BookState, PassSeat)
        ensures history { result.0.history ≡ self }
        ensures capacity { result.0.capacity ≡ N.capacity }
        ensures legal { IsLegal N.capacity self }
        ensures keeper { IsKeeper N.word result.1 }
        ensures seen { (knows result.1).seen ≡ self }
        ensures made { (knows result.1).made ≡ N.passes }
    {
        let Locked {
            state,
            keeper,
            of: _,
        } = self;
        let Some(keeper) = keeper else { unreachable!() };
        (state, keeper)
    }
}

/// The pass adds the last entry of the stored history to that of the word.
fn write<N: BookName>(
    front: &Front,
    history: &History,
    keeper: &mut Option<PassSeat>,
    pass: &mut Pass<N>,
)
    requires front { word_of front.now ≡ N.word }
    requires keeper { HasKeeper N.word keeper.old }
    requires next { HasNext (view_in keeper.old).seen pass.old.number history.now }
    requires legal { IsLegal N.capacity history.now }
    ensures keeper { HasKeeper N.word keeper.new }
    ensures list { (view_in keeper.new).seen ≡ history.now }
    ensures made { (view_in keeper.new).made ≡ (view_in keeper.old).made }
    ensures begins { IsPrefix pass.old.seen (view_in keeper.old).seen }
    ensures seen { pass.new.seen ≡ history.now }
    ensures mine { pass.new.mine ≡ pass.old.mine ++ drop (length (view_in keeper.old).seen) history.now }
    ensures number { pass.new.number ≡ pass.old.number }
{
    let known = history.len();
    append(front, keeper, &mut pass.seat, history.entry(known - 1));
    pass.known = known;
}

/// The pass takes a hold on what it has seen, which is the whole history. Where memory is wanting, it
/// holds what it held.
fn hold<N: BookName>(history: &History, pass: &mut Pass<N>)
    requires { pass.old.seen ≡ history.now }
    ensures seen { pass.new.seen ≡ pass.old.seen }
    ensures mine { pass.new.mine ≡ pass.old.mine }
    ensures number { pass.new.number ≡ pass.old.number }
{
    match history.extend(&mut pass.past) {
        Ok(()) => {}
        Err(AllocError) => {}
    }
}
