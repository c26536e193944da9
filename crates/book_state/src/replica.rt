//! Bookings, demand and marks of a history that is read entry by entry.
ghost use Rattle.std.specs.Prelude.{◌≡◌, ℕ, ◌+◌, ◌^◌, ◌<◌, ◌≤◌, [], length, take, slice_get, Some, IfOk, IsTrue};
ghost use Rattle.std.specs.Option.{option_copied};
ghost use Rattle.gr_base.specs.Limits.{most_nets};
ghost use Rattle.grid_demand.specs.Overfull.{AreOverfull};
ghost use Rattle.grid_demand.specs.Tables.{capacity_of};
ghost use Rattle.book_state.specs.Books.{nets_of, IsLegal, IsIdle};
ghost use Rattle.book_state.specs.Entries.{is_mark_at};
ghost use Rattle.book_state.specs.Replicas.{StandsFor, tree_at_place, place_of, IsClaimed, IsReleased};

use crate::entry::{Call, Claim, Entry, Reply};
use crate::history::History;
use crate::past::Past;
use crate::places::{Places, tree_by_place};
use gr_base::{Design, RouteTree};
use grid_demand::{Capacity, Loads, Overfull};
use std::alloc::{AllocError, Global};
use std::marker::Model;

/// The demand and the marks of a history, or of its first part. It reads the entries one by one.
#[derive(Debug, Drop)]
pub struct Replica {
    front: u64,
    places: Places,
    pub(crate) loads: Loads,
}

impl Replica {
    /// A replica of the empty history of a design. The only error is want of memory.
    pub fn new(alloc: Global, design: &Design) -> Result<Replica, AllocError>
        ensures { IfOk result (λ replica. StandsFor (capacity_of design.now) [] replica) }
    {
        let nets = design.nets();
        let capacity = Capacity::of(alloc, design)?;
        Replica::of(alloc, &capacity, nets)
    }

    /// A replica of the empty history of the design with this capacity and so many nets. The only
    /// error is want of memory.
    pub fn of(alloc: Global, capacity: &Capacity, nets: u32) -> Result<Replica, AllocError>
        requires nets { nets ≡ nets_of capacity.now }
        requires few { nets ≤ most_nets }
        ensures { IfOk result (λ replica. StandsFor capacity.now [] replica) }
    {
        Ok(Replica {
            front: 0,
            places: Places::none(alloc, nets)?,
            loads: Loads::new(alloc, capacity)?,
        })
    }

    /// The length of the first part of the history that it stands for.
    pub fn front(&self) -> u64
        ensures { result ≡ self.now.front }
    {
        self.front
    }

    /// The demand and the marks.
    pub fn loads(&self) -> &Loads
        ensures { result.now ≡ self.now.loads }
    {
        &self.loads
    }

    /// The demand and the marks, by value.
    pub(crate) fn into_loads(self) -> Loads
        ensures { result ≡ self.loads }
    {
        self.loads
    }

    /// How many nets there are.
    pub(crate) fn nets(&self) -> u32
        ensures nets { result ≡ length self.now.places }
        ensures few { result ≤ most_nets }
    {
        self.places.nets() as u32
    }

    /// Where the claims of the booked nets stand in the history, by net.
    pub(crate) fn places(&self) -> &Places
        ensures { result.now ≡ self.now.places }
    {
        &self.places
    }

    /// The tree of the claim by which a net is booked.
    pub(crate) fn tree<'a>(&self, history: &'a History, net: u32) -> Option<&'a RouteTree>
        ensures { option_copied result ≡ tree_at_place history.now (place_of self.now.places net) }
    {
        tree_by_place(history, &self.places, net as usize)
    }

    /// Reads what a legal history has beyond the part that the replica stands for, which is the
    /// history's first part.
    pub fn follow(&mut self, capacity: &Capacity, history: &History)
        requires legal { IsLegal capacity.now history.now }
        requires stands { StandsFor capacity.now (take self.old.front history.now) self.old }
        ensures { StandsFor capacity.now history.now self.new }
    {
        let end = history.len();
        self.read(capacity, history, end);
    }

    /// Reads the last entry of a legal history, a mark, where the replica stands for what is before it
    /// and the edges are told that are over their capacity.
    pub(crate) fn follow_mark(&mut self, capacity: &Capacity, history: &History, over: &Overfull)
        requires legal { IsLegal capacity.now history.now }
        requires stands { StandsFor capacity.now (take self.old.front history.now) self.old }
        requires last { self.old.front + 1 ≡ length history.now }
        requires mark { IsTrue (is_mark_at history.now self.old.front) }
        requires over { AreOverfull capacity.now self.old.loads over.now }
        ensures stands { StandsFor capacity.now history.now self.new }
        ensures over { AreOverfull capacity.now self.new.loads over.now }
    {
        self.front = history.len();
        self.loads.mark_overfull(capacity, over);
    }

    /// Another replica, which stands for a first part of the legal history that this one stands for,
    /// comes to stand for all of it. The edges are told that are over their capacity: a mark that is the
    /// last entry is read by them.
    pub(crate) fn bring_up(
        &self,
        other: &mut Replica,
        capacity: &Capacity,
        history: &History,
        over: &Overfull,
    )
        requires legal { IsLegal capacity.now history.now }
        requires stands { StandsFor capacity.now history.now self.now }
        requires other { StandsFor capacity.now (take other.old.front history.now) other.old }
        requires over { AreOverfull capacity.now self.now.loads over.now }
        ensures { StandsFor capacity.now history.now other.new }
    {
        let known = self.front();
        if other.front() == known || !is_mark(history, known - 1) {
            other.follow(capacity, history);
            return;
        }
        other.read(capacity, history, known - 1);
        self.share_mark(other, capacity, history, over);
    }

    /// Another replica, which stands for what is before the last entry, reads that: a mark, which this
    /// one has read.
    fn share_mark(
        &self,
        other: &mut Replica,
        capacity: &Capacity,
        history: &History,
        over: &Overfull,
    )
        requires stands { StandsFor capacity.now history.now self.now }
        requires other { StandsFor capacity.now (take other.old.front history.now) other.old }
        requires last { other.old.front + 1 ≡ length history.now }
        requires mark { IsTrue (is_mark_at history.now other.old.front) }
        requires over { AreOverfull capacity.now self.now.loads over.now }
        ensures { StandsFor capacity.now history.now other.new }
    {
        other.front = self.front;
        other.loads.mark_overfull(capacity, over);
    }

    /// Reads the entries of a past that the replica doesn't stand for yet. The past is legal, and
    /// the replica stands for its first part.
    pub fn catch_up(&mut self, capacity: &Capacity, past: &Past)
        requires legal { IsLegal capacity.now past.now }
        requires stands { StandsFor capacity.now (take self.old.front past.now) self.old }
        ensures { StandsFor capacity.now past.now self.new }
    {
        self.follow(capacity, past.entries());
    }

    /// Reads the entries before `end`.
    pub(crate) fn read(&mut self, capacity: &Capacity, history: &History, end: u64)
        requires legal { IsLegal capacity.now history.now }
        requires stands { StandsFor capacity.now (take self.old.front history.now) self.old }
        requires front { self.old.front ≤ end }
        requires end { end ≤ length history.now }
        ensures { StandsFor capacity.now (take end history.now) self.new }
    {
        for place in self.front..end {
            self.read_entry(capacity, history, place);
        }
    }

    /// Reads one entry.
    pub(crate) fn read_entry(&mut self, capacity: &Capacity, history: &History, place: u64)
        requires legal { IsLegal capacity.now history.now }
        requires stands { StandsFor capacity.now (take place history.now) self.old }
        requires place { place < length history.now }
        ensures { StandsFor capacity.now (take (place + 1) history.now) self.new }
    {
        let entry = history.entry(place);
        match &entry.call {
            Call::Claim(claim) => match entry.reply {
                Reply::Claimed => self.book(capacity, history, place, claim),
                _ => self.pass(capacity, history, place, entry),
            },
            Call::Release { net } => match entry.reply {
                Reply::Released => self.free(capacity, history, place, *net),
                _ => self.pass(capacity, history, place, entry),
            },
            Call::Mark => self.mark(capacity, history, place, entry),
        }
    }

    /// Books a net with the tree of its claim.
    fn book(&mut self, capacity: &Capacity, history: &History, place: u64, claim: &Claim)
        requires legal { IsLegal capacity.now history.now }
        requires stands { StandsFor capacity.now (take place history.now) self.old }
        requires few { place < 2 ^ 62 }
        requires claim { IsClaimed history.now place claim.now }
        ensures { StandsFor capacity.now (take (place + 1) history.now) self.new }
    {
        let fits = claim.tree.shape() == capacity.shape();
        prove!(fits);
        self.front = place + 1;
        self.loads.add(capacity, claim.net, &claim.tree);
        self.places.set(claim.net, place);
    }

    /// Frees a booked net.
    fn free(&mut self, capacity: &Capacity, history: &History, place: u64, net: u32)
        requires legal { IsLegal capacity.now history.now }
        requires stands { StandsFor capacity.now (take place history.now) self.old }
        requires few { place < 2 ^ 62 }
        requires release { IsReleased history.now place net }
        ensures { StandsFor capacity.now (take (place + 1) history.now) self.new }
    {
        let Some(tree) = self.tree(history, net) else {
            unreachable!()
        };
        let fits = tree.shape() == capacity.shape();
        prove!(fits);
        self.loads.take(capacity, net, tree);
        self.places.clear(net);
        self.front = place + 1;
    }

    /// Marks the loads.
    fn mark(&mut self, capacity: &Capacity, history: &History, place: u64, entry: &Entry)
        requires legal { IsLegal capacity.now history.now }
        requires stands { StandsFor capacity.now (take place history.now) self.old }
        requires few { place < 2 ^ 62 }
        requires there { slice_get history.now place ≡ Some entry.now }
        requires mark { entry.now.call ≡ Call.Mark }
        ensures { StandsFor capacity.now (take (place + 1) history.now) self.new }
    {
        self.front = place + 1;
        self.loads.mark(capacity);
    }

    /// Passes an entry that changes neither bookings nor loads.
    fn pass(&mut self, capacity: &Capacity, history: &History, place: u64, entry: &Entry)
        requires legal { IsLegal capacity.now history.now }
        requires stands { StandsFor capacity.now (take place history.now) self.old }
        requires few { place < 2 ^ 62 }
        requires there { slice_get history.now place ≡ Some entry.now }
        requires idle { IsIdle entry.now.call entry.now.reply }
        ensures { StandsFor capacity.now (take (place + 1) history.now) self.new }
    {
        self.front = place + 1;
    }
}

impl Model for Replica {
    ghost use Rattle.book_state.specs.Replicas.{ReplicaView};

    ghost Value = { ReplicaView };

    ghost use Rattle.book_state.specs.ReplicaStore.{seen, Keeps};

    ghost view = { seen };

    ghost invariant = { Keeps };
}

/// Whether the entry at a place is a mark.
fn is_mark(history: &History, at: u64) -> bool
    requires { at < length history.now }
    ensures { result ≡ is_mark_at history.now at }
{
    matches!(history.entry(at).call, Call::Mark)
}
