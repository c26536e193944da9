//! The sink of a running program: it touches the one stream that it is given, and counts the writes that fail.
ghost use Rattle.std.specs.Prelude.{◌≡◌, ◌<◌, ◌≤◌, false, [], length, OnOk, OnErr, IfOk};
ghost use Rattle.std.specs.Io.KnownBytes.{WriteAppends};
ghost use Rattle.gr_io.specs.Counts.{Rose, one_more};
ghost use Rattle.gr_io.specs.Host.{fresh_stream};

use crate::shelf::Failed;
use crate::sink::Sink;
use std::io;
use std::io::{ErrorKind, Write};
use std::marker::Model;

/// How often a write is tried that a signal interrupts.
const TRIES: u32 = 64;

/// A sink that writes to a stream, as a standard one.
#[derive(Drop)]
pub struct HostSink<W: Write> {
    stream: W,
    faults: u64,
}

impl<W: Write> Model for HostSink<W> {
    ghost use Rattle.gr_io.specs.Host.{HostStream};

    ghost Value = { HostStream };

    ghost view = { λ s. record { contents = W.contents s.stream; faults = s.faults } };
}

impl<W: Write> HostSink<W> {
    /// The count of faults is 0.
    pub fn new(stream: W) -> Self
        ensures { result ≡ fresh_stream (W.contents stream) }
    {
        HostSink { stream, faults: 0 }
    }
}

impl<W: Write> Sink for HostSink<W> {
    ghost tells = { false };

    ghost faults = { λ s. s.faults };

    ghost written = { λ _. [] };

    /// A write that takes nothing is a fault too.
    fn write(&mut self, bytes: &[u8]) -> Result<usize, Failed>
        requires { 0 < length bytes.now }
        ensures some { IfOk result (λ count. 1 ≤ count) }
        ensures within { IfOk result (λ count. count ≤ length bytes.now) }
        ensures failed { OnErr result (Rose self.old.faults self.new.faults) }
        ensures quiet { OnOk result (self.new.faults ≡ self.old.faults) }
        ensures faults_kept { self.old.faults ≤ self.new.faults }

        // Where the stream's bytes are known, it gained the bytes that are said to be written: so an
        // error of the stream is a fault.
        ensures bytes { WriteAppends self.old.contents self.new.contents result bytes.now }

        // A fault counts once.
        ensures counted { OnErr result (self.new.faults ≡ one_more self.old.faults) }
    {
        match write_some(&mut self.stream, bytes) {
            Ok(count) if count > 0 => Ok(count),
            _ => {
                self.faults = self.faults.saturating_add(1);
                Err(Failed)
            }
        }
    }
}

/// Writes some bytes, and tries again where a signal interrupts it.
fn write_some<W: Write>(stream: &mut W, bytes: &[u8]) -> io::Result<usize>
    ensures within { IfOk result (λ count. count ≤ length bytes.now) }
    ensures bytes { WriteAppends (W.contents stream.old) (W.contents stream.new) result bytes.now }
{
    for _ in 1..TRIES {
        match stream.write(bytes) {
            Err(error) if error.kind() == ErrorKind::Interrupted => {}
            outcome => return outcome,
        }
    }
    stream.write(bytes)
}
