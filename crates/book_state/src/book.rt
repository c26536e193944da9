//! The book: calls, their replies, and what can be asked of it.
ghost use Rattle.std.specs.Prelude.{◌≡◌, ℕ, ◌+◌, ◌<◌, ◌≤◌, [], length, take, None, Some, IfOk, IfErr, IfSome, OnOk, OnErr, IsTrue};
ghost use Rattle.std.specs.Arc.{arc_value};
ghost use Rattle.std.specs.Option.{option_copied};
ghost use Rattle.grid_demand.specs.Overfull.{AreOverfull};
ghost use Rattle.grid_demand.specs.Tables.{capacity_of};
ghost use Rattle.book_state.specs.Books.{nets_of, booked as booked_tree, demand, reply_to_free as free_reply, reply_to_claim, reply_to_release, reply_to_mark, booked_routes, IsClaim, IsRight, IsLegal, AreLoadsOf, victims as victims_of};
ghost use Rattle.book_state.specs.Entries.{is_claim_call};
ghost use Rattle.book_state.specs.Marks.{least_mark as least_mark_of};
ghost use Rattle.book_state.specs.Replicas.{StandsFor};
ghost use Rattle.book_state.specs.Views.{with_entry, with_call};

use crate::copies::copied_routes;
use crate::crowds::Crowds;
use crate::edges::reply_to_free;
use crate::entry::{Call, Claim, Entry, Reply};
use crate::extents::{Part, listed_victims, look_at_all, unseen_parts};
use crate::history::History;
use crate::least::{MarkedAt, least_after};
use crate::places::places_at;
use crate::replica::Replica;
use gr_base::{Cells, Design, RouteTree, Routes};
use grid_demand::{Capacity, Loads, Overfull};
use std::alloc::{AllocError, Global};
use std::marker::Model;
use std::sync::Arc;
use std::thread::Threads;

/// A claim that was not answered, for want of memory.
#[derive(Debug, Drop)]
pub struct ClaimRefused {
    pub claim: Claim,
}

/// A book of the tracks of a design: which nets are booked with which trees, the demand and the
/// marks that follow, and the history of all calls with their replies.
#[derive(Debug, Drop)]
pub struct BookState {
    capacity: Arc<Capacity>,
    history: History,
    replica: Replica,
    least: Option<MarkedAt>,
    /// What was last seen of the nets.
    parts: Vec<Part>,
    /// The edges over their capacity, where they are known.
    over: Option<Overfull>,
    /// A table of such edges that no longer holds, for its memory.
    spent: Option<Overfull>,
}

impl BookState {
    /// A book of a design without entries. The only error is want of memory.
    pub fn new(alloc: Global, design: &Design) -> Result<BookState, AllocError>
        ensures { IfOk result (λ book. book ≡ record { capacity = capacity_of design.now; history = [] }) }
    {
        let nets = design.nets();
        let capacity = Arc::new(alloc, Capacity::of(alloc, design)?)?;
        let replica = Replica::of(alloc, &capacity, nets)?;
        let parts = unseen_parts(alloc, &capacity, nets)?;
        Ok(BookState {
            capacity,
            history: History::new(alloc),
            replica,
            least: None,
            parts,
            over: None,
            spent: None,
        })
    }

    /// The capacity of the book's design.
    pub fn capacity(&self) -> &Capacity
        ensures capacity { result.now ≡ self.now.capacity }
        ensures legal { IsLegal self.now.capacity self.now.history }
    {
        &self.capacity
    }

    /// A hold on the capacity of the book's design, by which others read the same tables. The only
    /// error is that there are too many holds.
    pub fn shared_capacity(&self) -> Result<Arc<Capacity>, AllocError>
        ensures capacity { IfOk result (λ capacity. arc_value capacity ≡ self.now.capacity) }
        ensures legal { IsLegal self.now.capacity self.now.history }
    {
        Arc::try_clone(&self.capacity)
    }

    /// The history of all calls.
    pub fn history(&self) -> &History
        ensures history { result.now ≡ self.now.history }
        ensures legal { IsLegal self.now.capacity self.now.history }
    {
        &self.history
    }

    /// A replica that stands for a first part of the history comes to stand for all of it.
    pub fn bring_up(&self, replica: &mut Replica)
        requires { StandsFor self.now.capacity (take replica.old.front self.now.history) replica.old }
        ensures { StandsFor self.now.capacity self.now.history replica.new }
    {
        match &self.over {
            Some(over) => self
                .replica
                .bring_up(replica, &self.capacity, &self.history, over),
            None => replica.follow(&self.capacity, &self.history),
        }
    }

    /// The tree by which a net is booked. None exactly where it isn't.
    pub fn booked(&self, net: u32) -> Option<&RouteTree>
        ensures tree { option_copied result ≡ booked_tree self.now.history net }
        ensures legal { IsLegal self.now.capacity self.now.history }
    {
        self.replica.tree(&self.history, net)
    }

    /// The demand and the marks of the history.
    pub fn loads(&self) -> &Loads
        ensures loads { AreLoadsOf self.now.capacity self.now.history result.now }
        ensures legal { IsLegal self.now.capacity self.now.history }
    {
        self.replica.loads()
    }

    /// Books a net with a tree, where it isn't booked and the tree's wire edges have room within
    /// capacity and slack. The answer is `Taken` exactly where the net is booked; else `Full`
    /// exactly where there is a slack and a wire edge of the tree whose demand with the net's need
    /// is above capacity and slack, and names the first such edge by node number; else `Claimed`.
    /// `number` is the caller's. The net is one of the design's, the tree one on its grid, and the claim's
    /// front at most the history's length. The claim comes back only for want of memory, and the book is
    /// then as it was.
    pub fn claim(&mut self, number: u32, claim: Claim) -> Result<Reply, ClaimRefused>
        requires { IsClaim self.old.capacity (length self.old.history) claim }
        ensures reply { IfOk result (λ reply. reply ≡ reply_to_claim self.old.capacity self.old.history claim) }
        ensures entry { IfOk result (λ reply. self.new ≡ with_call self.old number (Call.Claim claim) reply) }
        ensures err { OnErr result (self.new ≡ self.old) }
        ensures back { IfErr result (λ refused. refused.claim ≡ claim) }
        ensures legal { IsLegal self.new.capacity self.new.history }
    {
        let reply = self.reply_to_claim(&claim);
        let call = Call::Claim(claim);
        match self.append(Entry {
            number,
            call,
            reply,
        }) {
            Ok(()) => Ok(reply),
            Err(refused) => Err(ClaimRefused {
                claim: claim_of(refused.call),
            }),
        }
    }

    /// Frees one of the design's nets for a caller of this number. The answer is `Released` exactly where
    /// the net is booked, else `NotBooked`. The only error is want of memory, and leaves the book as it
    /// was.
    pub fn release(&mut self, number: u32, net: u32) -> Result<Reply, AllocError>
        requires { net < nets_of self.old.capacity }
        ensures reply { IfOk result (λ reply. reply ≡ reply_to_release self.old.history net) }
        ensures entry { IfOk result (λ reply. self.new ≡ with_call self.old number (Call.Release net) reply) }
        ensures err { OnErr result (self.new ≡ self.old) }
        ensures legal { IsLegal self.new.capacity self.new.history }
    {
        let reply = self.reply_to_release(net);
        let call = Call::Release { net };
        match self.append(Entry {
            number,
            call,
            reply,
        }) {
            Ok(()) => Ok(reply),
            Err(_) => Err(AllocError),
        }
    }

    /// Marks the edges whose demand is above their capacity, for a caller of this number. The answer
    /// carries the total overflow. The only error is want of memory, and leaves the book as it was.
    pub fn mark(&mut self, number: u32) -> Result<Reply, AllocError>
        ensures reply { IfOk result (λ reply. reply ≡ reply_to_mark self.old.capacity self.old.history) }
        ensures entry { IfOk result (λ reply. self.new ≡ with_call self.old number Call.Mark reply) }
        ensures err { OnErr result (self.new ≡ self.old) }
        ensures legal { IsLegal self.new.capacity self.new.history }
    {
        let alloc = self.history.alloc();
        let known = self.over.take();
        let spent = self.spent.take();
        let over = known_or_found(alloc, &self.replica, &self.capacity, known, spent)?;
        let reply = Reply::Marked {
            overflow: over.total(),
        };
        let Ok(()) = self.history.push(Entry {
            number,
            call: Call::Mark,
            reply,
        })
        else {
            return Err(AllocError);
        };
        self.replica
            .follow_mark(&self.capacity, &self.history, &over);
        self.least = least_after(self.least, reply, self.history.len());
        self.over = Some(over);
        Ok(reply)
    }

    /// Looks for the edges over their capacity, by at most so many threads, where they aren't known: a
    /// mark or a look for victims that comes next needs them. The only error is want of memory.
    pub fn find_overfull<R: Threads + Sync>(
        &mut self,
        rt: &R,
        threads: u32,
    ) -> Result<(), AllocError>
        requires { 0 < threads }
        ensures { self.new ≡ self.old }
    {
        if self.over.is_some() {
            return Ok(());
        }
        let alloc = self.history.alloc();
        let spent = self.spent.take();
        let loads = self.replica.loads();
        let over = loads.overfull_by(rt, alloc, &self.capacity, spent, threads)?;
        self.over = Some(over);
        Ok(())
    }

    fn reply_to_claim(&self, claim: &Claim) -> Reply
        requires { IsClaim self.now.capacity (length self.now.history) claim.now }
        ensures { result ≡ reply_to_claim self.now.capacity self.now.history claim.now }
    {
        if self.booked(claim.net).is_some() {
            return Reply::Taken;
        }
        self.reply_to_free(claim)
    }

    /// The reply to a claim of a net that isn't booked.
    fn reply_to_free(&self, claim: &Claim) -> Reply
        requires { IsClaim self.now.capacity (length self.now.history) claim.now }
        ensures { result ≡ free_reply self.now.capacity (demand self.now.capacity self.now.history) claim.now
            claim.now.slack }
    {
        reply_to_free(&self.capacity, self.replica.loads(), claim)
    }

    fn reply_to_release(&self, net: u32) -> Reply
        ensures { result ≡ reply_to_release self.now.history net }
    {
        if self.booked(net).is_some() {
            Reply::Released
        } else {
            Reply::NotBooked
        }
    }

    /// The booked nets whose tree has a wire edge with more demand than capacity, in the order of
    /// the design. The only error is want of memory.
    pub fn victims(&self) -> Result<Cells, AllocError>
        ensures { IfOk result (λ nets. nets ≡ victims_of self.now.capacity self.now.history) }
    {
        self.replica.victims(&self.capacity, &self.history)
    }

    /// The same, looked for by at most so many threads. What is seen of a net stays for the next call,
    /// which goes through the trees of few nets that weren't claimed since.
    pub fn victims_by<R: Threads + Sync>(
        &mut self,
        rt: &R,
        threads: u32,
    ) -> Result<Cells, AllocError>
        requires { 0 < threads }
        ensures same { self.new ≡ self.old }
        ensures victims { IfOk result (λ nets. nets ≡ victims_of self.old.capacity self.old.history) }
    {
        let alloc = self.history.alloc();
        let known = self.over.take();
        let over = known_or_found(alloc, &self.replica, &self.capacity, known, None)?;
        let crowds = Crowds::of(alloc, self.capacity.shape(), over)?;
        look_at_all(
            rt,
            &self.replica,
            &self.capacity,
            &self.history,
            &crowds,
            threads,
            &mut self.parts,
        );
        self.over = Some(crowds.into_over());
        listed_victims(alloc, &self.parts)
    }

    /// The length of the shortest first part of the history that ends with a mark of least
    /// overflow. None exactly where the history has no mark.
    pub fn least_mark(&self) -> Option<u64>
        ensures { result ≡ least_mark_of self.now.history }
    {
        match self.least {
            Some(mark) => Some(mark.length),
            None => None,
        }
    }

    /// Each tree that was booked after the first `front` entries. The only error is want of memory.
    pub fn routes_at(&self, front: u64) -> Result<Routes, AllocError>
        requires { front ≤ length self.now.history }
        ensures { IfOk result (λ routes. routes ≡ booked_routes self.now.capacity (take front self.now.history)) }
    {
        let nets = self.replica.nets();
        if front == self.history.len() {
            return copied_routes(&self.history, self.replica.places(), nets);
        }
        let places = places_at(&self.capacity, &self.history, nets, front)?;
        copied_routes(&self.history, &places, nets)
    }

    /// The demand and the marks after the first `front` entries. The capacity is that of the book's
    /// design. The only error is want of memory.
    pub fn loads_at(&self, capacity: &Capacity, front: u64) -> Result<Loads, AllocError>
        requires capacity { capacity.now ≡ self.now.capacity }
        requires front { front ≤ length self.now.history }
        ensures { IfOk result (λ loads. AreLoadsOf self.now.capacity (take front self.now.history) loads) }
    {
        let nets = self.replica.nets();
        let mut replica = Replica::of(self.history.alloc(), capacity, nets)?;
        replica.read(capacity, &self.history, front);
        Ok(replica.into_loads())
    }

    /// Adds an entry behind the others. It comes back only for want of memory.
    fn append(&mut self, entry: Entry) -> Result<(), Entry>
        requires { IsRight self.old.capacity self.old.history entry }
        ensures ok { OnOk result (self.new ≡ with_entry self.old entry) }
        ensures err { OnErr result (self.new ≡ self.old) }
        ensures back { IfErr result (λ refused. refused ≡ entry) }
        ensures legal { IsLegal self.new.capacity self.new.history }
    {
        let reply = entry.reply;
        self.history.push(entry)?;
        self.replica.follow(&self.capacity, &self.history);
        self.least = least_after(self.least, reply, self.history.len());
        give_up(&mut self.over, &mut self.spent);
        Ok(())
    }
}

impl Model for BookState {
    ghost use Rattle.book_state.specs.Views.{BookView};

    ghost Value = { BookView };

    ghost use Rattle.book_state.specs.BookStore.{seen, Keeps};

    ghost view = { seen };

    ghost invariant = { Keeps };
}

/// The edges over their capacity, where they are known, and else found in the memory of a table that is
/// given up, if there is one. The only error is want of memory.
fn known_or_found(
    alloc: Global,
    replica: &Replica,
    capacity: &Capacity,
    known: Option<Overfull>,
    spent: Option<Overfull>,
) -> Result<Overfull, AllocError>
    requires shape { capacity.now.shape ≡ replica.now.loads.shape }
    requires known { IfSome known (AreOverfull capacity.now replica.now.loads) }
    ensures { IfOk result (AreOverfull capacity.now replica.now.loads) }
{
    match known {
        Some(over) => Ok(over),
        None => replica.loads().overfull_in(alloc, capacity, spent),
    }
}

/// Gives up a table, of which the memory is kept. Most entries come where there is none.
fn give_up(over: &mut Option<Overfull>, spent: &mut Option<Overfull>)
    ensures { over.new ≡ None }
{
    if over.is_some() {
        *spent = over.take();
    }
}

/// The claim of a call that is one.
fn claim_of(call: Call) -> Claim
    requires { IsTrue (is_claim_call call) }
    ensures { call ≡ Call.Claim result }
{
    let Call::Claim(claim) = call else {
        unreachable!()
    };
    claim
}
