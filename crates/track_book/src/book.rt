//! The shared book.
ghost use Rattle.std.specs.Prelude.{◌≡◌, ◌<◌, ◌≤◌, length, take, IfOk, IfErr, OnOk, OnErr};
ghost use Rattle.std.specs.Arc.{arc_value};
ghost use Rattle.book_front.specs.Seats.{word_of};
ghost use Rattle.book_state.specs.Books.{nets_of, IsClaim, victims as victims_of};
ghost use Rattle.book_state.specs.Replicas.{StandsFor};
ghost use Rattle.track_book.specs.Passes.{IsPass, IsAnswered, HasLearnt, AreAll, IsClosed};

use crate::closed::{ClosedBook, close};
use crate::locked::Locked;
use crate::name::BookName;
use crate::pass::Pass;
use book_front::Front;
use book_state::{Call, Claim, ClaimRefused, Replica, Reply};
use gr_base::Cells;
use grid_demand::Capacity;
use std::alloc::AllocError;
use std::hint::spin_loop;
use std::sync::{Arc, Mutex, MutexGuard, Wait};
use std::thread::Threads;

/// How often a caller looks whether the lock is free before it sleeps. Most calls hold the lock for a
/// microsecond or two, and waking a sleeper takes far longer.
const LOOKS: u32 = 64;

/// From which look on pauses grow no longer: each before is twice as long as the one before it. A look
/// takes the lock's memory from the caller that holds it.
const LONGEST: u32 = 4;

/// The book N, which threads share. Each call is one entry of one history, and its reply is the one
/// that a book for one thread gives there. `claim`, `release`, `mark`, `find_overfull`, `hold`, `sync`,
/// `victims`, `meet` and `meet_and_bring_up` take the lock and may wait for it; no other call does.
#[derive(Drop)]
pub struct TrackBook<N: BookName> {
    pub(crate) front: Front,
    pub(crate) capacity: Arc<Capacity>,
    pub(crate) lock: Mutex<Locked<N>>,
    ghost word_is: { word_of front ≡ N.word },
    ghost capacity_is: { arc_value capacity ≡ N.capacity },
}

impl<N: BookName> TrackBook<N> {
    /// The capacity of the book's design.
    pub fn capacity(&self) -> &Capacity
        ensures { result.now ≡ N.capacity }
    {
        &self.capacity
    }

    /// What lies under the lock, once no other caller holds it.
    pub(crate) fn locked<R: Wait>(&self, rt: &R) -> MutexGuard<'_, Locked<N>> {
        for look in 0..LOOKS {
            if let Some(guard) = self.lock.try_lock() {
                return guard;
            }
            pause(1 << look.min(LONGEST));
        }
        self.lock.lock(rt)
    }

    /// Books a net with a tree, where it isn't booked and the tree's wire edges have room within
    /// capacity and slack. The pass then has seen a history that ends with this call and its reply.
    /// The claim comes back only for want of memory, and pass and book are then as they were.
    pub fn claim<R: Wait>(
        &self,
        rt: &R,
        pass: &mut Pass<N>,
        claim: Claim,
    ) -> Result<Reply, ClaimRefused>
        requires { IsClaim N.capacity (length pass.old.seen) claim }
        ensures reply { IfOk result (λ reply. IsAnswered N.capacity pass.old pass.new (Call.Claim claim) reply) }
        ensures err { OnErr result (pass.new ≡ pass.old) }
        ensures back { IfErr result (λ refused. refused.claim ≡ claim) }
    {
        let reply = self.locked(rt).claim(&self.front, pass, claim)?;
        pass.let_go();
        Ok(reply)
    }

    /// Frees a booked net. The only error is want of memory, and leaves pass and book as they were.
    pub fn release<R: Wait>(
        &self,
        rt: &R,
        pass: &mut Pass<N>,
        net: u32,
    ) -> Result<Reply, AllocError>
        requires { net < nets_of N.capacity }
        ensures reply { IfOk result (λ reply. IsAnswered N.capacity pass.old pass.new (Call.Release net) reply) }
        ensures err { OnErr result (pass.new ≡ pass.old) }
    {
        let reply = self.locked(rt).release(&self.front, pass, net)?;
        pass.let_go();
        Ok(reply)
    }

    /// Marks the edges whose demand is above their capacity. The answer carries the total overflow.
    /// The only error is want of memory, and leaves pass and book as they were.
    pub fn mark<R: Wait>(&self, rt: &R, pass: &mut Pass<N>) -> Result<Reply, AllocError>
        ensures reply { IfOk result (λ reply. IsAnswered N.capacity pass.old pass.new Call.Mark reply) }
        ensures err { OnErr result (pass.new ≡ pass.old) }
    {
        self.locked(rt).mark(&self.front, pass)
    }

    /// Looks for the edges whose demand is above their capacity, by at most so many threads, while the lock
    /// is held. A mark that comes next then needn't. That changes nothing that is seen of the book. The
    /// only error is want of memory.
    pub fn find_overfull<R: Threads + Wait + Sync>(
        &self,
        rt: &R,
        threads: u32,
    ) -> Result<(), AllocError>
        requires { 0 < threads }
    {
        self.locked(rt).find_overfull(rt, threads)
    }

    /// The pass sees the whole history, and holds it, so that replicas can read it when the lock is free
    /// again. The only error is want of memory, and leaves the pass as it was.
    pub fn hold<R: Wait>(&self, rt: &R, pass: &mut Pass<N>) -> Result<(), AllocError>
        ensures learnt { OnOk result (HasLearnt N.capacity pass.old pass.new) }
        ensures held { OnOk result (pass.new.held ≡ length pass.new.seen) }
        ensures err { OnErr result (pass.new ≡ pass.old) }
    {
        self.locked(rt).sync(&self.front, pass)?;
        pass.let_go();
        Ok(())
    }

    /// The same, and the replica comes to stand for the history. An error leaves it too as it was.
    pub fn sync<R: Wait>(
        &self,
        rt: &R,
        pass: &mut Pass<N>,
        replica: &mut Replica,
    ) -> Result<(), AllocError>
        requires { StandsFor N.capacity (take replica.old.front pass.old.seen) replica.old }
        ensures learnt { OnOk result (HasLearnt N.capacity pass.old pass.new) }
        ensures stands { OnOk result (StandsFor N.capacity pass.new.seen replica.new) }
        ensures held { OnOk result (pass.new.held ≡ length pass.new.seen) }
        ensures err { OnErr result (pass.new ≡ pass.old) }
        ensures replica_err { OnErr result (replica.new ≡ replica.old) }
    {
        self.hold(rt, pass)?;
        replica.catch_up(&self.capacity, pass.past());
        Ok(())
    }

    /// The pass sees the whole history. The result are the booked nets whose tree then has a wire edge
    /// with more demand than capacity, in the order of the design. They are looked for by at most so
    /// many threads, while the lock is held. The only error is want of memory, and leaves the pass as it
    /// was.
    pub fn victims<R: Threads + Wait + Sync>(
        &self,
        rt: &R,
        pass: &mut Pass<N>,
        threads: u32,
    ) -> Result<Cells, AllocError>
        requires { 0 < threads }
        ensures learnt { OnOk result (HasLearnt N.capacity pass.old pass.new) }
        ensures victims { IfOk result (λ nets. nets ≡ victims_of N.capacity pass.new.seen) }
        ensures err { OnErr result (pass.new ≡ pass.old) }
    {
        self.locked(rt).victims(rt, &self.front, pass, threads)
    }

    /// Both passes come to have seen one history, which begins with what each had seen.
    pub fn meet<R: Wait>(&self, rt: &R, one: &mut Pass<N>, other: &mut Pass<N>)
        ensures one { HasLearnt N.capacity one.old one.new }
        ensures other { HasLearnt N.capacity other.old other.new }
        ensures same { one.new.seen ≡ other.new.seen }
        ensures knew { (IsPass N.capacity one.old) × (IsPass N.capacity other.old) }
        ensures know { (IsPass N.capacity one.new) × (IsPass N.capacity other.new) }
    {
        self.locked(rt).meet(&self.front, one, other);
    }

    /// The same, and the replica, which stands for a first part of what the second pass had seen, comes
    /// to stand for that history while the lock is held. A mark at its end is read by what the book
    /// found at it: that takes less than to look at each edge, as `sync` does.
    pub fn meet_and_bring_up<R: Wait>(
        &self,
        rt: &R,
        one: &mut Pass<N>,
        other: &mut Pass<N>,
        replica: &mut Replica,
    )
        requires { StandsFor N.capacity (take replica.old.front other.old.seen) replica.old }
        ensures one { HasLearnt N.capacity one.old one.new }
        ensures other { HasLearnt N.capacity other.old other.new }
        ensures same { one.new.seen ≡ other.new.seen }
        ensures knew { (IsPass N.capacity one.old) × (IsPass N.capacity other.old) }
        ensures know { (IsPass N.capacity one.new) × (IsPass N.capacity other.new) }
        ensures stands { StandsFor N.capacity other.new.seen replica.new }
    {
        self.locked(rt)
            .meet_and_bring_up(&self.front, one, other, replica);
    }

    /// How many entries the history has, at least. It waits for nobody.
    pub fn front(&self, pass: &mut Pass<N>) -> u64
        ensures front { length pass.old.seen ≤ result }
        ensures same { pass.new ≡ pass.old }
    {
        pass.count(&self.front)
    }

    /// Ends the book. The passes are all of its passes, by number. The only error is want of memory,
    /// and hands all back as it was.
    pub fn close(self, passes: Vec<Pass<N>>) -> Result<ClosedBook, (TrackBook<N>, Vec<Pass<N>>)>
        requires { AreAll N.passes passes.items }
        ensures book { IfOk result (λ closed. IsClosed N.capacity passes.items closed.state.history) }
        ensures capacity { IfOk result (λ closed. closed.state.capacity ≡ N.capacity) }
        ensures same { IfErr result (λ back. back.0 ≡ self) }
        ensures back { IfErr result (λ back. back.1.items ≡ passes.items) }
    {
        let Ok(seats) = Vec::with_capacity(*passes.allocator(), passes.len()) else {
            return Err((self, passes));
        };
        let TrackBook {
            front,
            capacity: _,
            lock,
        } = self;
        Ok(close(front, lock.into_inner(), passes, seats))
    }
}

/// Lets so many short pauses go by.
fn pause(times: u32) {
    for _ in 0..times {
        spin_loop();
    }
}
