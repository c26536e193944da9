//! The shelf for trying readers without files: texts are put into memory, and listed calls fail.
ghost use Rattle.std.specs.Prelude.{◌≡◌, ℕ, ◌<◌, ◌≤◌, ◌↔◌, ◌++◌, ◌∷◌, [], true, List, Some, None, Ok, Err, take, length, is_some, IsTrue, IsErr, OnOk, OnErr, IfOk};
ghost use Rattle.gr_io.specs.Calls.{next_fails};
ghost use Rattle.gr_io.specs.Counts.{Rose};
ghost use Rattle.gr_io.specs.Shelves.{StaysOpen, SameTexts};
ghost use Rattle.gr_io.specs.Texts.{empty_shelf, held_in, held_at, is_reached, left_at, reach_answer, after_reach, read_count, after_read};
ghost use Rattle.gr_io.specs.declared.shelf.Slot.{Slot};

use crate::calls::Calls;
use crate::copy::copy_start;
use crate::shelf::{Failed, ReachError, Shelf, Slot};
use crate::slots::Slots;
use crate::text::{NamedText, number_of};
use std::alloc::{AllocError, Global};
use std::marker::Model;

/// The next byte to be read: the number of its text, and where it stands in it.
#[derive(Clone, Copy)]
pub(crate) struct NextByte {
    text: usize,
    at: usize,
}

/// A shelf that holds its texts in memory. It fails at listed calls; `reach` and `read` are counted
/// together, from 1. A call that isn't `Ok` leaves what is open in each slot as it was.
#[derive(Drop)]
pub struct MemoryShelf {
    texts: Vec<NamedText>,
    places: Slots<Option<NextByte>>,
    piece: usize,
    misses: u64,
    calls: Calls,
}

impl Model for MemoryShelf {
    ghost use Rattle.std.specs.Prelude.{◌<◌};
    ghost use Rattle.gr_io.specs.Texts.{MemoryTexts};
    ghost use Rattle.gr_io.specs.Slots.{map_slots};

    ghost Value = { MemoryTexts };

    ghost use Rattle.gr_io.specs.Places.{left_of, ArePlaces};

    ghost view = { λ s. record {
      texts = s.texts.items;
      log = s.calls;
      misses = s.misses;
      piece = s.piece;
      left = map_slots (left_of s.texts.items) s.places;
    } };

    ghost invariant = { λ s. (0 < s.piece) × ArePlaces s.texts.items s.places };
}

impl MemoryShelf {
    /// A shelf that holds no text, and whose calls of these numbers fail.
    pub fn new(alloc: Global, fails: Vec<u64>) -> Self
        ensures { result ≡ empty_shelf fails.items }
    {
        MemoryShelf {
            texts: Vec::new(alloc),
            places: Slots {
                design: None,
                library: None,
                solution: None,
            },
            piece: usize::MAX,
            misses: 0,
            calls: Calls::new(fails),
        }
    }

    /// Whether a text of this name is held.
    pub fn holds(&self, name: &str) -> bool
        ensures { result ≡ is_some (held_in self.now.texts name.now) }
    {
        number_of(&self.texts, name).is_some()
    }

    /// Holds the bytes under the name. The only error is want of memory.
    pub fn hold(&mut self, alloc: Global, name: &str, bytes: &[u8]) -> Result<(), AllocError>
        requires { held_in self.old.texts name.now ≡ None }
        ensures ok { OnOk result (self.new
            ≡ record self.old { texts = self.old.texts ++ record { name = name.now; bytes = bytes.now } ∷ [] }) }
        ensures err { OnErr result (self.new ≡ self.old) }
    {
        let text = NamedText::new(alloc, name, bytes)?;
        self.texts.push(text)?;
        Ok(())
    }

    /// From now on a read gives at most so many bytes.
    pub fn piece(&mut self, most: u32)
        requires { 0 < most }
        ensures { self.new ≡ record self.old { piece = most } }
    {
        self.piece = most as usize;
    }
}

impl Shelf for MemoryShelf {
    ghost tells = { true };

    ghost faults = { λ s. s.log.faults };

    ghost misses = { λ s. s.misses };

    ghost reached = { is_reached };

    ghost left = { left_at };

    ghost held = { held_at };

    fn reach(&mut self, _alloc: Global, slot: Slot, name: &str) -> Result<(), ReachError>
        ensures reached { OnOk result (IsTrue (is_reached self.new slot)) }
        ensures opened { OnOk result (held_in self.old.texts name.now ≡ Some (left_at self.new slot)) }
        ensures missing { result ≡ Err ReachError.Missing → Rose self.old.misses self.new.misses }
        ensures not_held { result ≡ Err ReachError.Missing → held_in self.old.texts name.now ≡ None }
        ensures failed { result ≡ Err ReachError.Failed → Rose self.old.log.faults self.new.log.faults }
        ensures faults { (result ≡ Err ReachError.Failed → ⊥) → self.new.log.faults ≡ self.old.log.faults }
        ensures misses { (result ≡ Err ReachError.Missing → ⊥) → self.new.misses ≡ self.old.misses }
        ensures faults_kept { self.old.log.faults ≤ self.new.log.faults }
        ensures misses_kept { self.old.misses ≤ self.new.misses }
        ensures held { SameTexts (held_at self.old) (held_at self.new) }

        // It takes no memory, fails exactly at a listed call, and misses exactly the names not held.
        ensures answer { result ≡ reach_answer self.old name.now }
        ensures state { self.new ≡ after_reach self.old slot name.now }
    {
        if self.calls.begin().is_err() {
            return Err(ReachError::Failed);
        }
        let Some(text) = number_of(&self.texts, name) else {
            self.misses = self.misses.saturating_add(1);
            return Err(ReachError::Missing);
        };
        self.places.set(slot, Some(NextByte { text, at: 0 }));
        Ok(())
    }

    fn read(&mut self, slot: Slot, buf: &mut [u8]) -> Result<usize, Failed>
        requires reached { IsTrue (is_reached self.old slot) }
        requires room { 0 < length buf.old }
        ensures within { IfOk result (λ count. count ≤ length buf.old) }
        ensures bytes { IfOk result (λ count. take count buf.new ++ left_at self.new slot ≡ left_at self.old slot) }
        ensures end { IfOk result (λ count. (count ≡ 0) ↔ (left_at self.old slot ≡ [])) }
        ensures failed { OnErr result (Rose self.old.log.faults self.new.log.faults) }
        ensures quiet { OnOk result (self.new.log.faults ≡ self.old.log.faults) }
        ensures faults_kept { self.old.log.faults ≤ self.new.log.faults }
        ensures misses { self.new.misses ≡ self.old.misses }
        ensures reached { StaysOpen (is_reached self.old) (is_reached self.new) }
        ensures held { SameTexts (held_at self.old) (held_at self.new) }

        // It fails exactly at a listed call, and gives as many bytes as it can.
        ensures fails { IsErr result ↔ IsTrue (next_fails self.old.log) }
        ensures count { IfOk result (λ count. count ≡ read_count self.old slot (length buf.old)) }
        ensures state { self.new ≡ after_read self.old slot (length buf.old) }
    {
        self.calls.begin()?;
        let place = (*self.places.get(slot)).unwrap();
        let text = &self.texts[place.text];
        let count = copy_start(&text.bytes()[place.at..], buf, self.piece);
        let at = place.at + count;
        self.places.set(
            slot,
            Some(NextByte {
                text: place.text,
                at,
            }),
        );
        Ok(count)
    }
}
