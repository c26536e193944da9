//! Devices whose calls never fail and take no memory: a shelf of given texts, and a sink that drops its bytes.
ghost use Rattle.std.specs.Prelude.{◌≡◌, ℕ, ◌<◌, ◌≤◌, ◌↔◌, ◌++◌, true, false, List, [], Some, None, take, length, min, IsTrue, IsOk, OnOk, IfOk};
ghost use Rattle.gr_io.specs.Shelves.{StaysOpen, SameTexts};
ghost use Rattle.gr_io.specs.Slots.{at_slot};
ghost use Rattle.gr_io.specs.Sure.{whole_texts, text_at, rest_of, is_opened, after_open, after_take};
ghost use Rattle.gr_io.specs.declared.shelf.Slot.{Slot};

use crate::copy::copy_start;
use crate::shelf::{Failed, ReachError, Shelf, Slot};
use crate::sink::Sink;
use crate::slots::Slots;
use gr_base::Name;
use std::alloc::Global;
use std::marker::Model;

/// A shelf that never fails: each slot has one text, which is held under every name.
#[derive(Drop)]
pub struct SureShelf {
    texts: Slots<Name>,
    places: Slots<Option<usize>>,
}

impl Model for SureShelf {
    ghost use Rattle.std.specs.Prelude.{◌≤◌, length};
    ghost use Rattle.gr_io.specs.Sure.{SureTexts, rest_from, AreWithin};
    ghost use Rattle.gr_io.specs.Slots.{zip_slots};

    ghost Value = { SureTexts };

    ghost view = { λ s. record { texts = s.texts; left = zip_slots rest_from s.texts s.places } };

    ghost invariant = { λ s. AreWithin s.texts s.places };
}

impl SureShelf {
    /// Holds a text for each slot, of which none is open.
    pub fn new(design: Name, library: Name, solution: Name) -> Self
        ensures { result ≡ whole_texts design library solution }
    {
        SureShelf {
            texts: Slots {
                design,
                library,
                solution,
            },
            places: Slots {
                design: None,
                library: None,
                solution: None,
            },
        }
    }
}

impl Shelf for SureShelf {
    ghost tells = { true };

    ghost faults = { λ _. 0 };

    ghost misses = { λ _. 0 };

    ghost reached = { is_opened };

    ghost left = { rest_of };

    ghost held = { text_at };

    fn reach(&mut self, _alloc: Global, slot: Slot, _name: &str) -> Result<(), ReachError>
        ensures reached { OnOk result (IsTrue (is_opened self.new slot)) }
        ensures opened { OnOk result (Some (at_slot self.old.texts slot) ≡ Some (rest_of self.new slot)) }
        ensures held { SameTexts (text_at self.old) (text_at self.new) }

        // It never fails, and takes no memory.
        ensures sure { IsOk result }
        ensures state { self.new ≡ after_open self.old slot }
    {
        self.places.set(slot, Some(0));
        Ok(())
    }

    fn read(&mut self, slot: Slot, buf: &mut [u8]) -> Result<usize, Failed>
        requires reached { IsTrue (is_opened self.old slot) }
        requires room { 0 < length buf.old }
        ensures within { IfOk result (λ count. count ≤ length buf.old) }
        ensures bytes { IfOk result (λ count. take count buf.new ++ rest_of self.new slot ≡ rest_of self.old slot) }
        ensures end { IfOk result (λ count. (count ≡ 0) ↔ (rest_of self.old slot ≡ [])) }
        ensures reached { StaysOpen (is_opened self.old) (is_opened self.new) }
        ensures held { SameTexts (text_at self.old) (text_at self.new) }

        // It never fails, and gives as many bytes as it can.
        ensures sure { IsOk result }
        ensures count { IfOk result (λ count. count ≡ min (length buf.old) (length (rest_of self.old slot))) }
        ensures state { self.new ≡ after_take self.old slot (length buf.old) }
    {
        let at = (*self.places.get(slot)).unwrap();
        let bytes = self.texts.get(slot).bytes();
        let count = copy_start(&bytes[at..], buf, buf.len());
        self.places.set(slot, Some(at + count));
        Ok(count)
    }
}

/// A sink that never fails, and drops its bytes.
#[derive(Clone, Copy, Debug)]
pub struct SureSink;

impl SureSink {
    /// A sink that takes all and keeps nothing.
    pub fn new() -> Self {
        SureSink
    }
}

impl Sink for SureSink {
    ghost tells = { false };

    ghost faults = { λ _. 0 };

    ghost written = { λ _. [] };

    fn write(&mut self, bytes: &[u8]) -> Result<usize, Failed>
        requires { 0 < length bytes.now }
        ensures some { IfOk result (λ count. 1 ≤ count) }
        ensures within { IfOk result (λ count. count ≤ length bytes.now) }

        // It never fails, and takes all at once.
        ensures sure { IsOk result }
        ensures count { IfOk result (λ count. count ≡ length bytes.now) }
    {
        Ok(bytes.len())
    }
}
