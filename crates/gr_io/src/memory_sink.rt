//! The sink for trying writers without a stream: what it took can be looked at, and listed calls fail.
ghost use Rattle.std.specs.Prelude.{◌≡◌, ◌<◌, ◌≤◌, ◌↔◌, ◌++◌, ◌||◌, take, length, true, IsTrue, OnOk, OnErr, IfOk, IsErr};
ghost use Rattle.gr_io.specs.Calls.{next_fails};
ghost use Rattle.gr_io.specs.Counts.{Rose};
ghost use Rattle.gr_io.specs.Memory.{empty_sink, taken_of, is_full, after_write};

use crate::calls::Calls;
use crate::shelf::Failed;
use crate::sink::Sink;
use std::alloc::{AllocError, Global};
use std::marker::Model;

/// A sink that keeps the bytes in memory. It has room for so many bytes, takes at most so many in
/// a call, and fails at listed calls, which it counts from 1, and where its room is full.
#[derive(Drop)]
pub struct MemorySink {
    bytes: Vec<u8>,
    room: usize,
    most: u32,
    calls: Calls,
}

impl Model for MemorySink {
    ghost use Rattle.std.specs.Prelude.{◌<◌, ◌≤◌, vec_len, vec_capacity};
    ghost use Rattle.gr_io.specs.Memory.{MemoryBytes};

    ghost Value = { MemoryBytes };

    ghost view = { λ s. record {
      written = s.bytes.items;
      room = s.room;
      most = s.most;
      log = s.calls;
    } };

    ghost invariant = { λ s. (0 < s.most) × (vec_len s.bytes ≤ s.room) × (s.room ≤ vec_capacity s.bytes) };
}

impl MemorySink {
    /// The room is taken at once, so that a write takes no memory. The only error is want of memory.
    pub fn new(alloc: Global, room: u64, most: u32, fails: Vec<u64>) -> Result<Self, AllocError>
        requires { 0 < most }
        ensures { IfOk result (λ sink. sink ≡ empty_sink room most fails.items) }
    {
        let room = room as usize;
        Ok(MemorySink {
            bytes: Vec::with_capacity(alloc, room)?,
            room,
            most,
            calls: Calls::new(fails),
        })
    }

    /// What was written, from the first byte on.
    pub fn bytes(&self) -> &[u8]
        ensures { result.now ≡ self.now.written }
    {
        &self.bytes
    }
}

impl Sink for MemorySink {
    ghost tells = { true };

    ghost faults = { λ s. s.log.faults };

    ghost written = { λ s. s.written };

    fn write(&mut self, bytes: &[u8]) -> Result<usize, Failed>
        requires { 0 < length bytes.now }
        ensures some { IfOk result (λ count. 1 ≤ count) }
        ensures within { IfOk result (λ count. count ≤ length bytes.now) }
        ensures appended { IfOk result (λ count. self.new.written ≡ self.old.written ++ take count bytes.now) }
        ensures unchanged { OnErr result (self.new.written ≡ self.old.written) }
        ensures failed { OnErr result (Rose self.old.log.faults self.new.log.faults) }
        ensures quiet { OnOk result (self.new.log.faults ≡ self.old.log.faults) }
        ensures faults_kept { self.old.log.faults ≤ self.new.log.faults }

        // It fails exactly at a listed call and where its room is full.
        ensures fails { IsErr result ↔ IsTrue (next_fails self.old.log || is_full self.old) }
        ensures count { IfOk result (λ count. count ≡ taken_of self.old (length bytes.now)) }
        ensures state { self.new ≡ after_write self.old bytes.now }
    {
        self.calls.begin()?;
        let room = self.room - self.bytes.len();
        if room == 0 {
            return Err(self.calls.fail());
        }
        let count = bytes.len().min(room).min(self.most as usize);
        self.bytes.extend_from_slice(&bytes[..count]).unwrap();
        Ok(count)
    }
}
