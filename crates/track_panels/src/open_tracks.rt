//! Tracks that are taken and free, by two heaps.
ghost use Rattle.std.specs.BinaryHeap.{IsHeap, heap_items};
ghost use Rattle.std.proofs.Props.{props};
ghost use Rattle.track_panels.specs.Orders.{by_end, by_track};

use std::cmp::Reverse;
use std::collections::BinaryHeap;

/// The open tracks while pieces are placed by rising low ends.
#[derive(Drop)]
pub(crate) struct OpenTracks {
    /// The free ones, the least first.
    pub free: BinaryHeap<Reverse<u32>>,
    /// The others, each behind the tile in which its last piece ends, the least tile first.
    pub busy: BinaryHeap<Reverse<(u32, u32)>>,
    /// How many tracks are open: just those below.
    pub opened: u32,
    /// The low end of the piece that opened the last of them.
    pub point: u32,
    pub ghost least: { IsHeap by_track (heap_items free) } by { Prim.hlevel props },
    pub ghost first: { IsHeap by_end (heap_items busy) } by { Prim.hlevel props },
}
