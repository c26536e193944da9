//! Entries that leave a net's plan the best in its window.
ghost use Rattle.std.specs.Prelude.{◌+◌, ◌<◌, ◌≤◌, List, length, take, IfOk, OnOk, IsTrue};
ghost use Rattle.book_state.specs.Books.{IsLegal};
ghost use Rattle.book_state.specs.Replicas.{StandsFor};
ghost use Rattle.book_state.specs.Still.{StaysBest};
ghost use Rattle.book_state.specs.Touches.{AreTouches};
ghost use Rattle.book_state.specs.declared.entry.Entry.{Entry};

use crate::entry::{Call, Reply};
use crate::history::History;
use crate::past::Past;
use crate::replica::Replica;
use crate::touches::{Touch, are_settled, lies_beyond, note_tree};
use cost_rules::Formula;
use gr_base::RouteTree;
use grid_demand::Capacity;
use maze_route::Window;
use std::alloc::AllocError;

/// A net, the formula of its costs, the window in which its route is searched, and the tree that was found
/// to be its plan there.
#[derive(Clone, Copy, Debug)]
pub struct Sought<'a> {
    pub net: u32,
    pub formula: Formula,
    pub window: Window,
    pub tree: &'a RouteTree,
}

impl Replica {
    /// Reads the entries of a past that the replica doesn't stand for yet, as `catch_up` does. The
    /// result is true only where they leave the net's booking, and where each wire edge that begins in
    /// the window stays as much over its capacity with the net on it, and keeps its marks: then it costs
    /// the net the same. An edge may get over it by more where it doesn't join two cells of the tree: a
    /// plan doesn't change because what it leaves aside gets dearer. The only error is want of memory for
    /// that look; the replica then stands for a first part of the past.
    pub fn catch_up_beside(
        &mut self,
        capacity: &Capacity,
        past: &Past,
        sought: &Sought<'_>,
    ) -> Result<bool, AllocError>
        requires legal { IsLegal capacity.now past.now }
        requires stands { StandsFor capacity.now (take self.old.front past.now) self.old }
        ensures stands { OnOk result (StandsFor capacity.now past.now self.new) }
        ensures part { StandsFor capacity.now (take self.new.front past.now) self.new }
        ensures still { IfOk result (λ still. IsTrue still → StaysBest capacity.now sought.now.formula sought.now.net sought.now.window
            sought.now.tree.now (take self.old.front past.now) past.now) }
    {
        let history = past.entries();
        self.read_beside(capacity, history, history.len(), sought)
    }

    /// Reads the entries before `end`. The result says of them what that of `catch_up_beside` says.
    pub(crate) fn read_beside(
        &mut self,
        capacity: &Capacity,
        history: &History,
        end: u64,
        sought: &Sought<'_>,
    ) -> Result<bool, AllocError>
        requires legal { IsLegal capacity.now history.now }
        requires stands { StandsFor capacity.now (take self.old.front history.now) self.old }
        requires front { self.old.front ≤ end }
        requires end { end ≤ length history.now }
        ensures stands { OnOk result (StandsFor capacity.now (take end history.now) self.new) }
        ensures part { StandsFor capacity.now (take self.new.front history.now) self.new }
        ensures still { IfOk result (λ still. IsTrue still → StaysBest capacity.now sought.now.formula sought.now.net sought.now.window
            sought.now.tree.now (take self.old.front history.now) (take end history.now)) }
    {
        let near = self.nodes_near(history, end, sought.window);
        let mut touches = Vec::with_capacity(history.alloc(), near)?;
        let mut still = true;
        for place in self.front()..end {
            still = still && self.note_entry(capacity, history, place, sought, &mut touches)?;
            self.read_entry(capacity, history, place);
        }
        Ok(still && are_settled(capacity, self.loads(), sought, &touches))
    }

    /// How many nodes the trees have that the entries before `end` book or free and that may reach a
    /// window, as far as the replica knows them. That takes a look at the first node of each tree and at
    /// no more. Trees that other threads wrote aren't in this processor's cache: here several are loaded
    /// at the same time, and not one after another as entries are read.
    fn nodes_near(&self, history: &History, end: u64, window: Window) -> usize
        requires { end ≤ length history.now }
    {
        let mut nodes: usize = 0;
        for place in self.front()..end {
            if let Some(tree) = self.tree_of(history, place)
                && !lies_beyond(tree, window)
            {
                nodes = nodes.saturating_add(tree.len() as usize);
            }
        }
        nodes
    }

    /// The tree that an entry books or frees, as far as the replica knows it.
    fn tree_of<'a>(&self, history: &'a History, place: u64) -> Option<&'a RouteTree>
        requires { place < length history.now }
    {
        match &history.entry(place).call {
            Call::Claim(claim) => Some(&claim.tree),
            Call::Release { net } => self.tree(history, *net),
            Call::Mark => None,
        }
    }

    /// Notes what the entry that is to be read next may change for the net in the window. False where it
    /// is a mark or one of the net itself. The only error is want of memory.
    fn note_entry(
        &self,
        capacity: &Capacity,
        history: &History,
        place: u64,
        sought: &Sought<'_>,
        touches: &mut Vec<Touch>,
    ) -> Result<bool, AllocError>
        requires legal { IsLegal capacity.now history.now }
        requires stands { StandsFor capacity.now (take place history.now) self.now }
        requires place { place < length history.now }
        ensures { IfOk result (λ noted. IsTrue noted → (first : List Entry) →
            AreTouches capacity.now sought.now.formula sought.now.net sought.now.window first (take place history.now) touches.old.items →
            AreTouches capacity.now sought.now.formula sought.now.net sought.now.window first (take (place + 1) history.now)
            touches.new.items) }
    {
        let entry = history.entry(place);
        let loads = self.loads();
        match &entry.call {
            Call::Claim(claim) => match entry.reply {
                Reply::Claimed => {
                    if claim.net == sought.net {
                        return Ok(false);
                    }
                    let other = Some(claim.net);
                    note_tree(capacity, loads, &claim.tree, sought, other, touches)?;
                    Ok(true)
                }
                _ => Ok(true),
            },
            Call::Release { net: freed } => match entry.reply {
                Reply::Released => {
                    let Some(tree) = self.tree(history, *freed) else {
                        return Ok(false);
                    };
                    if *freed == sought.net {
                        return Ok(false);
                    }
                    note_tree(capacity, loads, tree, sought, None, touches)?;
                    Ok(true)
                }
                _ => Ok(true),
            },
            Call::Mark => Ok(false),
        }
    }
}
