//! Holds the part of a text that lies in memory, refilled from a shelf's slot as tokens use it up.
ghost use Rattle.std.specs.Prelude.{◌≡◌, ℕ, ◌+◌, ◌<◌, ◌≤◌, ◌↔◌, List, [], ◌++◌, take, drop, length, slice_range, IsTrue, IfOk, OnOk, OnErr};
ghost use Rattle.gr_io.specs.Counts.{Rose};
ghost use Rattle.gr_io.specs.Shelves.{KeepsShelf};
ghost use Rattle.gr_io.specs.declared.shelf.Slot.{Slot};

use gr_io::{Failed, Shelf, Slot};
use std::alloc::{AllocError, Global};
use std::marker::Model;

/// How many bytes are read at a time, at most.
pub const PIECE_BYTES: usize = 65_536;

/// A piece of a text, with a place in it.
#[derive(Drop)]
pub struct Piece {
    bytes: Vec<u8>,
    at: usize,
    filled: usize,
}

impl Model for Piece {
    ghost use Rattle.std.specs.Prelude.{ℕ, ◌≡◌, ◌≤◌, List, take, slice_range, vec_len};
    ghost use Rattle.gr_text.specs.Streams.{Cursor};

    ghost Value = { Cursor };

    ghost view = { λ p. record {
      taken = take p.at p.bytes.items;
      ahead = slice_range p.bytes.items p.at p.filled;
    } };

    ghost invariant = { λ p. (p.at ≤ p.filled) × (p.filled ≤ vec_len p.bytes) × (vec_len p.bytes ≡ 65536) };
}

impl Piece {
    /// An empty piece. The only error is want of memory.
    pub fn new(alloc: Global, size: usize) -> Result<Self, AllocError>
        requires { size ≡ 65536 }
        ensures { IfOk result (λ piece. (piece.taken ≡ []) × (piece.ahead ≡ [])) }
    {
        Ok(Piece {
            bytes: vec![in alloc; 0; size]?,
            at: 0,
            filled: 0,
        })
    }

    /// The bytes ahead.
    pub fn ahead(&self) -> &[u8]
        ensures value { result.now ≡ self.now.ahead }
        ensures few { length self.now.ahead ≤ 65536 }
    {
        &self.bytes[self.at..self.filled]
    }

    /// How many bytes are taken.
    pub fn at(&self) -> usize
        ensures { result ≡ length self.now.taken }
    {
        self.at
    }

    /// The taken bytes in a range.
    pub fn taken(&self, from: usize, to: usize) -> &[u8]
        requires from { from ≤ to }
        requires to { to ≤ length self.now.taken }
        ensures { result.now ≡ slice_range self.now.taken from to }
    {
        &self.bytes[from..to]
    }

    /// Takes the next bytes.
    pub fn take(&mut self, count: usize)
        requires { count ≤ length self.old.ahead }
        ensures taken { self.new.taken ≡ self.old.taken ++ take count self.old.ahead }
        ensures ahead { self.new.ahead ≡ drop count self.old.ahead }
    {
        self.at += count;
    }

    /// Reads the next bytes in place of these, and says whether there were any.
    pub fn fill<S: Shelf>(&mut self, shelf: &mut S, slot: Slot) -> Result<bool, Failed>
        requires reached { IsTrue (S.reached shelf.old slot) }
        requires spent { self.old.ahead ≡ [] }
        ensures taken { OnOk result (self.new.taken ≡ []) }
        ensures bytes { OnOk result (IsTrue S.tells →
            self.new.ahead ++ S.left shelf.new slot ≡ S.left shelf.old slot) }
        ensures some { IfOk result (λ more. IsTrue more ↔ (0 < length self.new.ahead)) }
        ensures end { IfOk result (λ more. IsTrue S.tells → IsTrue more ↔ (0 < length (S.left shelf.old slot))) }
        ensures failed { OnErr result
            ((S.faults shelf.old ≤ S.faults shelf.new) × Rose (S.faults shelf.old) (S.faults shelf.new)) }
        ensures unread { OnErr result (self.new.ahead ≡ []) }
        ensures quiet { OnOk result (S.faults shelf.new ≡ S.faults shelf.old) }
        ensures shelf { KeepsShelf S.misses S.reached S.held shelf.old shelf.new }
    {
        let count = shelf.read(slot, &mut self.bytes)?;
        self.at = 0;
        self.filled = count;
        Ok(count > 0)
    }
}
