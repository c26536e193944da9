//! The queue of cells that wait.
ghost use Rattle.std.specs.Prelude.{◌≡◌, ◌≤◌, [], OnOk, OnErr};
ghost use Rattle.maze_route.specs.Kept.{cells_of_pairs};
ghost use Rattle.maze_route.specs.Queues.{IsPushed, Pops};

use crate::bucket::{bucket_of, own_bucket};
use crate::first::{renew, take_first};
use crate::heads::Heads;
use crate::places::{put, waiting};
use crate::slot::Slot;
use std::alloc::{AllocError, Global};
use std::marker::Model;

/// Pairs of a key and a cell, taken out by least key. No key that is put in is below the last one
/// taken out.
///
/// Keys near the last one taken have a bucket each, as in Dial, "Algorithm 360: shortest-path forest
/// with topological ordering", 1969. Those farther on lie in buckets by the highest bit in which their
/// block of keys differs from its, as in the radix heap of Ahuja, Mehlhorn, Orlin and Tarjan, "Faster
/// algorithms for the shortest path problem", 1990. The pairs lie in one vector and are linked into
/// their buckets by place.
#[derive(Debug, Drop)]
pub struct BucketQueue {
    slots: Vec<Slot>,
    heads: Heads,
    /// The first free place.
    free: Option<u32>,
    last: u64,
}

impl Model for BucketQueue {
    ghost use Rattle.maze_route.specs.Queues.{QueueView};

    ghost Value = { QueueView };

    ghost use Rattle.maze_route.specs.Stored.{seen, AreBuckets};

    ghost view = { seen };

    ghost invariant = { AreBuckets };
}

impl BucketQueue {
    /// An empty queue, which takes no memory. Its last key is 0.
    pub fn new(alloc: Global) -> BucketQueue
        ensures { result ≡ record { pairs = []; last = 0 } }
    {
        BucketQueue {
            slots: Vec::new(alloc),
            heads: Heads::new(),
            free: None,
            last: 0,
        }
    }

    /// Takes all pairs out and begins again with last key 0. The queue keeps its memory.
    pub fn clear(&mut self)
        ensures { self.new ≡ record { pairs = []; last = 0 } }
    {
        self.slots.clear();
        self.heads = Heads::new();
        self.free = None;
        self.last = 0;
    }

    /// Puts a pair in. The only error is want of memory, and leaves the queue as it was.
    pub fn push(&mut self, key: u64, cell: u32) -> Result<(), AllocError>
        requires { self.old.last ≤ key }
        ensures ok { OnOk result (IsPushed key cell self.old self.new) }
        ensures err { OnErr result (self.new ≡ self.old) }
    {
        let bucket = bucket_of(self.last, key);
        let slot = Slot {
            key,
            cell,
            next: self.heads.at(bucket),
            taken: true,
        };
        let place = put(&mut self.slots, &mut self.free, slot)?;
        self.heads.set(bucket, Some(place));
        Ok(())
    }

    /// Puts the cells of all pairs in the place of what a list held.
    pub(crate) fn cells(&self, cells: &mut Vec<u32>) -> Result<(), AllocError>
        ensures { OnOk result (cells.new.items ≡ cells_of_pairs self.now.pairs) }
    {
        waiting(&self.slots, cells)
    }

    /// Takes a pair of least key out. None exactly where the queue is empty. It takes no memory.
    #[inline(always)]
    pub fn pop(&mut self) -> Option<(u64, u32)>
        ensures { Pops result self.old self.new }
    {
        let bucket = self.heads.first_full(own_bucket(self.last))?;
        let first = self.heads.at(bucket).unwrap();
        self.last = renew(&mut self.slots, &mut self.heads, self.last, bucket, first);
        let slot = take_first(&mut self.slots, &mut self.heads, &mut self.free, self.last);
        Some((slot.key, slot.cell))
    }
}
