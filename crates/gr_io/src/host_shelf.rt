//! The shelf of a running program: it reads files, and touches them only through the runtime that it is given.
ghost use Rattle.std.specs.Prelude.{◌≡◌, ℕ, ◌<◌, ◌≤◌, Bool, false, List, [], None, length, IsTrue, OnOk, OnErr, IfOk};
ghost use Rattle.std.specs.Io.KnownBytes.{ReadConsumes};
ghost use Rattle.gr_io.specs.Counts.{Rose, one_more};
ghost use Rattle.gr_io.specs.Host.{no_files, with_file};
ghost use Rattle.gr_io.specs.Shelves.{StaysOpen};
ghost use Rattle.gr_io.specs.Slots.{at_slot, set_slot};
ghost use Rattle.gr_io.specs.declared.shelf.Slot.{Slot};

use crate::shelf::{Failed, ReachError, Shelf, Slot};
use crate::slots::Slots;
use std::alloc::Global;
use std::io::{ErrorKind, Read};
use std::marker::Model;
use std::rt::Files;
use std::{fs, io};

/// How often a read is tried that a signal interrupts.
const TRIES: u32 = 64;

/// A shelf of the files that a runtime opens by their paths. It has one open file a slot.
#[derive(Drop)]
pub struct HostShelf<R: Files> {
    rt: R,
    files: Slots<Option<R::File>>,
    faults: u64,
    misses: u64,
}

impl<R: Files> Model for HostShelf<R> {
    ghost use Rattle.std.specs.Prelude.{is_some, option_and_then};
    ghost use Rattle.gr_io.specs.Host.{HostFiles};
    ghost use Rattle.gr_io.specs.Slots.{map_slots};

    ghost Value = { HostFiles };

    ghost view = { λ s. record {
      opened = map_slots is_some s.files;
      left = map_slots (option_and_then R.File.remaining) s.files;
      faults = s.faults;
      misses = s.misses;
    } };
}

impl<R: Files> HostShelf<R> {
    /// No file is open yet, and the counts are 0.
    pub fn new(rt: R) -> Self
        ensures { result ≡ no_files }
    {
        HostShelf {
            rt,
            files: Slots {
                design: None,
                library: None,
                solution: None,
            },
            faults: 0,
            misses: 0,
        }
    }
}

impl<R: Files> Shelf for HostShelf<R> {
    ghost tells = { false };

    ghost faults = { λ s. s.faults };

    ghost misses = { λ s. s.misses };

    ghost reached = { λ s slot. at_slot s.opened slot };

    ghost left = { λ _ _. [] };

    ghost held = { λ _ _ _. None };

    /// Opens the file of this path. A file that can't be opened is missing, but for want of memory.
    fn reach(&mut self, _alloc: Global, slot: Slot, name: &str) -> Result<(), ReachError>
        ensures reached { OnOk result (IsTrue (at_slot self.new.opened slot)) }
        ensures missing { result ≡ Err ReachError.Missing → Rose self.old.misses self.new.misses }
        ensures failed { result ≡ Err ReachError.Failed → Rose self.old.faults self.new.faults }
        ensures faults { (result ≡ Err ReachError.Failed → ⊥) → self.new.faults ≡ self.old.faults }
        ensures misses { (result ≡ Err ReachError.Missing → ⊥) → self.new.misses ≡ self.old.misses }
        ensures faults_kept { self.old.faults ≤ self.new.faults }
        ensures misses_kept { self.old.misses ≤ self.new.misses }

        // It never answers that a device failed, and what isn't Ok leaves the open files.
        ensures sure { result ≡ Err ReachError.Failed → ⊥ }
        ensures counted { result ≡ Err ReachError.Missing → self.new.misses ≡ one_more self.old.misses }
        ensures file { OnOk result (self.new ≡ with_file self.old slot (at_slot self.new.left slot)) }
        ensures kept { OnErr result (self.new.opened ≡ self.old.opened) }
        ensures unread { OnErr result (self.new.left ≡ self.old.left) }
    {
        match fs::open(&self.rt, name) {
            Ok(file) => {
                self.files.set(slot, Some(file));
                Ok(())
            }
            Err(error) if error.kind() == ErrorKind::OutOfMemory => Err(ReachError::NoMemory),
            Err(_) => {
                self.misses = self.misses.saturating_add(1);
                Err(ReachError::Missing)
            }
        }
    }

    fn read(&mut self, slot: Slot, buf: &mut [u8]) -> Result<usize, Failed>
        requires reached { IsTrue (at_slot self.old.opened slot) }
        requires room { 0 < length buf.old }
        ensures within { IfOk result (λ count. count ≤ length buf.old) }
        ensures failed { OnErr result (Rose self.old.faults self.new.faults) }
        ensures quiet { OnOk result (self.new.faults ≡ self.old.faults) }
        ensures faults_kept { self.old.faults ≤ self.new.faults }
        ensures misses { self.new.misses ≡ self.old.misses }
        ensures reached { StaysOpen (at_slot self.old.opened) (at_slot self.new.opened) }

        // Where the file's bytes are known, what is given are its next ones, and 0 bytes only at
        // their end: so an error of the file is a fault.
        ensures bytes { ReadConsumes (at_slot self.old.left slot) (at_slot self.new.left slot) result buf.new }

        // A fault counts once, and the open files stay.
        ensures counted { OnErr result (self.new.faults ≡ one_more self.old.faults) }
        ensures kept { self.new.opened ≡ self.old.opened }
        ensures others { self.new.left ≡ set_slot self.old.left slot (at_slot self.new.left slot) }
    {
        let mut file = self.files.take(slot).unwrap();
        let result = read_or_count(&mut file, buf, &mut self.faults);
        self.files.set(slot, Some(file));
        result
    }
}

/// Reads some bytes, and counts a fault where that fails.
fn read_or_count<F: Read>(file: &mut F, buf: &mut [u8], faults: &mut u64) -> Result<usize, Failed>
    ensures within { IfOk result (λ count. count ≤ length buf.old) }
    ensures bytes { ReadConsumes (F.remaining file.old) (F.remaining file.new) result buf.new }
    ensures failed { OnErr result (Rose faults.old faults.new) }
    ensures counted { OnErr result (faults.new ≡ one_more faults.old) }
    ensures quiet { OnOk result (faults.new ≡ faults.old) }
    ensures kept { faults.old ≤ faults.new }
{
    match read_some(file, buf) {
        Ok(count) => Ok(count),
        Err(_) => {
            *faults = faults.saturating_add(1);
            Err(Failed)
        }
    }
}

/// Reads some bytes, and tries again where a signal interrupts it.
fn read_some<F: Read>(file: &mut F, buf: &mut [u8]) -> io::Result<usize>
    ensures within { IfOk result (λ count. count ≤ length buf.old) }
    ensures bytes { ReadConsumes (F.remaining file.old) (F.remaining file.new) result buf.new }
{
    for _ in 1..TRIES {
        match file.read(buf) {
            Err(error) if error.kind() == ErrorKind::Interrupted => {}
            outcome => return outcome,
        }
    }
    file.read(buf)
}
