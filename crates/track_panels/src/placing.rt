//! How a piece gets the least track that is clear.
ghost use Rattle.std.specs.Prelude.{◌≡◌, ℕ, ◌≤◌, ◌<◌, ◌^◌, ◌++◌, ◌∷◌, [], Any, IsTrue, false, OnOk, IfOk, IfSome, None};
ghost use Rattle.track_panels.specs.Numberings.{Placed};
ghost use Rattle.track_panels.specs.OpenTracks.{AreBusy, AreKept, AreOpen, Leaves, Opens, Stands, Takes, free_of, busy_of};

use crate::open_tracks::OpenTracks;
use crate::piece::Piece;
use std::alloc::{AllocError, Global};
use std::cmp::Reverse;
use std::collections::BinaryHeap;

impl OpenTracks {
    /// No track is open.
    pub(crate) fn new(alloc: Global) -> OpenTracks
        ensures stands { Stands [] 0 result }
        ensures opened { result.opened ≡ 0 }
    {
        OpenTracks {
            free: BinaryHeap::new(alloc),
            busy: BinaryHeap::new(alloc),
            opened: 0,
            point: 0,
        }
    }

    /// Places the next piece, whose low end is at the tile of the last one's or beyond: gives it the
    /// least track that is clear there. The only error is want of memory.
    pub(crate) fn place(&mut self, piece: Piece) -> Result<u32, AllocError>
        requires room { self.old.opened < 2 ^ 31 }
        requires long { piece.low < piece.high }
        ensures { IfOk result (λ track. (placed : Placed) → (tile : ℕ) → tile ≤ piece.low →
            Stands placed tile self.old → Stands (placed ++ (piece, track) ∷ []) piece.low self.new) }
    {
        self.clear_below(piece.low)?;
        let track = self.take_least(piece.low);
        self.busy.push(Reverse((piece.high, track)))?;
        Ok(track)
    }

    /// Makes the tracks free that end below the tile. The only error is want of memory.
    fn clear_below(&mut self, tile: u32) -> Result<(), AllocError>
        ensures kept { OnOk result ((placed : Placed) → (before : ℕ) → before ≤ tile →
            AreKept placed before self.old.opened (free_of self.old) (busy_of self.old) →
            AreKept placed tile self.new.opened (free_of self.new) (busy_of self.new)) }
        ensures busy { OnOk result (AreBusy tile self.new) }
        ensures open { OnOk result (AreOpen self.old self.new) }
    {
        while let Some(track) = self.take_ended(tile) {
            self.free.push(Reverse(track))?;
        }
        Ok(())
    }

    /// Takes out the busy track that ends first, if it ends below the tile.
    fn take_ended(&mut self, tile: u32) -> Option<u32>
        ensures some { IfSome result (λ track. Leaves tile track self.old self.new) }
        ensures none { result ≡ None → AreBusy tile self.new }
        ensures same { result ≡ None → self.new ≡ self.old }
    {
        if !self.has_ended(tile) {
            return None;
        }
        let Some(Reverse((_, track))) = self.busy.pop() else {
            return None;
        };
        Some(track)
    }

    /// Whether some busy track ends below the tile.
    fn has_ended(&self, tile: u32) -> bool
        ensures some { IsTrue result → Any (λ b. b.0 < tile) (busy_of self.now) }
        ensures none { result ≡ false → AreBusy tile self.now }
    {
        match self.busy.peek() {
            None => false,
            Some(Reverse((high, _))) => *high < tile,
        }
    }

    /// Takes the least free track, or opens one where none is free.
    fn take_least(&mut self, tile: u32) -> u32
        requires { self.old.opened < 2 ^ 31 }
        ensures { Takes tile result self.old self.new }
    {
        match self.free.pop() {
            Some(Reverse(track)) => track,
            None => self.open_one(tile),
        }
    }

    /// Opens one more track.
    fn open_one(&mut self, tile: u32) -> u32
        requires room { self.old.opened < 2 ^ 31 }
        requires none { free_of self.old ≡ [] }
        ensures { Opens tile result self.old self.new }
    {
        let track = self.opened;
        self.opened = track + 1;
        self.point = tile;
        track
    }
}
