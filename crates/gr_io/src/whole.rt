//! Writes to any sink, call after call, until all bytes are taken or a call fails.
ghost use Rattle.std.specs.Prelude.{◌≡◌, ◌≤◌, ◌++◌, [], IsTrue, IsOk, OnOk, OnErr};
ghost use Rattle.gr_io.specs.Counts.{Rose};
ghost use Rattle.gr_io.specs.Parts.{AppendsPart};

use crate::shelf::Failed;
use crate::sink::Sink;

/// Writes all of the bytes. At an error the sink holds a first part of them, and no more.
pub fn write_whole<K: Sink>(sink: &mut K, bytes: &[u8]) -> Result<(), Failed>
    ensures ok { OnOk result (IsTrue K.tells → K.written sink.new ≡ K.written sink.old ++ bytes.now) }
    ensures quiet { OnOk result (K.faults sink.new ≡ K.faults sink.old) }
    ensures prefix { OnErr result (IsTrue K.tells → AppendsPart (K.written sink.old) (K.written sink.new) bytes.now) }
    ensures failed { OnErr result (Rose (K.faults sink.old) (K.faults sink.new)) }
    ensures faults_kept { K.faults sink.old ≤ K.faults sink.new }

    // An empty text is written by no call.
    ensures empty_ok { bytes.now ≡ [] → IsOk result }
    ensures empty_same { bytes.now ≡ [] → sink.new ≡ sink.old }
{
    let mut rest = bytes;
    while !rest.is_empty() {
        let count = sink.write(rest)?;
        rest = &rest[count..];
    }
    Ok(())
}
