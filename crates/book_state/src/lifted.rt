//! Loads as they are once a net is released, while it is booked.
ghost use Rattle.std.specs.Prelude.{◌≡◌, [], ◌∷◌, ◌++◌, false, ◌<◌, take, is_some, IfOk, OnOk, IsTrue};
ghost use Rattle.book_state.specs.Books.{nets_of, booked as booked_tree, IsLegal};
ghost use Rattle.book_state.specs.Lifted.{IsFreeing, IsLifted};
ghost use Rattle.book_state.specs.Replicas.{StandsFor};
ghost use Rattle.book_state.specs.Still.{StaysBest};
ghost use Rattle.book_state.specs.declared.entry.Entry.{Entry};

use crate::entry::{Call, Entry, Reply};
use crate::past::Past;
use crate::replica::Replica;
use crate::still::Sought;
use grid_demand::Capacity;
use std::alloc::AllocError;

impl Replica {
    /// Takes a booked net's tree out of the loads, which then are those after a release of the net. The
    /// answer is true exactly where the net is booked; elsewhere nothing changes. `put_back` undoes it.
    pub fn lift(&mut self, capacity: &Capacity, past: &Past, net: u32) -> bool
        requires legal { IsLegal capacity.now past.now }
        requires stands { StandsFor capacity.now past.now self.old }
        requires net { net < nets_of capacity.now }
        ensures booked { result ≡ is_some (booked_tree past.now net) }
        ensures lifted { IsTrue result → IsLifted capacity.now past.now net self.new }
        ensures same { result ≡ false → self.new ≡ self.old }
    {
        let Some(tree) = self.tree(past.entries(), net) else {
            return false;
        };
        let fits = tree.shape() == capacity.shape();
        prove!(fits);
        self.loads.take(capacity, net, tree);
        true
    }

    /// Puts the tree back that `lift` took out.
    pub fn put_back(&mut self, capacity: &Capacity, past: &Past, net: u32)
        requires legal { IsLegal capacity.now past.now }
        requires lifted { IsLifted capacity.now past.now net self.old }
        requires net { net < nets_of capacity.now }
        ensures { StandsFor capacity.now past.now self.new }
    {
        let Some(tree) = self.tree(past.entries(), net) else {
            unreachable!()
        };
        let fits = tree.shape() == capacity.shape();
        prove!(fits);
        self.loads.add(capacity, net, tree);
    }

    /// Reads the entries of a past that the replica doesn't stand for yet, as `catch_up_beside` does.
    /// The result is true only where the last of them frees the net, which counts as no change, and of
    /// the others it says what that of `catch_up_beside` says. The only error is want of memory; the
    /// replica then stands for a first part of the past.
    pub fn catch_up_freed(
        &mut self,
        capacity: &Capacity,
        past: &Past,
        sought: &Sought<'_>,
    ) -> Result<bool, AllocError>
        requires legal { IsLegal capacity.now past.now }
        requires stands { StandsFor capacity.now (take self.old.front past.now) self.old }
        requires net { sought.now.net < nets_of capacity.now }
        ensures stands { OnOk result (StandsFor capacity.now past.now self.new) }
        ensures part { StandsFor capacity.now (take self.new.front past.now) self.new }
        ensures still { IfOk result (λ still. IsTrue still → (e : Entry) → IsFreeing sought.now.net e →
            StaysBest capacity.now sought.now.formula sought.now.net sought.now.window sought.now.tree.now
            (take self.old.front past.now ++ e ∷ []) past.now) }
    {
        let history = past.entries();
        if history.len() <= self.front() {
            return Ok(false);
        }
        let last = history.len() - 1;
        let still = self.read_beside(capacity, history, last, sought)?;
        self.read_entry(capacity, history, last);
        Ok(still && frees(history.entry(last), sought.net))
    }
}

/// Whether an entry frees a net.
fn frees(entry: &Entry, net: u32) -> bool
    ensures { IsTrue result → IsFreeing net entry.now }
{
    match &entry.call {
        Call::Release { net: freed } => match entry.reply {
            Reply::Released => *freed == net,
            _ => false,
        },
        Call::Claim(_) | Call::Mark => false,
    }
}
