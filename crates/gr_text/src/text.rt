//! Texts that are put together, and written to a sink.
ghost use Rattle.std.specs.Prelude.{◌≡◌, ◌≤◌, List, [], ◌++◌, IsTrue, OnOk, OnErr};
ghost use Rattle.gr_io.specs.Counts.{Rose};
ghost use Rattle.gr_io.specs.Parts.{AppendsPart};
ghost use Rattle.gr_text.specs.Lines.{number_line};

use gr_io::{Failed, Sink, write_whole};
use itoa::{Buffer, Integer};
use std::alloc::{AllocError, Global};
use std::marker::Model;

/// A text that is put together piece by piece.
#[derive(Debug, Drop)]
pub struct Text {
    written: Vec<u8>,
}

impl Model for Text {
    ghost use Rattle.std.specs.Prelude.{ℕ, List};

    ghost Value = { List ℕ };

    ghost view = { λ t. t.written.items };
}

impl Text {
    /// An empty text.
    pub fn new(alloc: Global) -> Self
        ensures { result ≡ [] }
    {
        Text {
            written: Vec::new(alloc),
        }
    }

    /// Puts the bytes at the end. An error leaves the text as it was.
    pub fn put(&mut self, bytes: &[u8]) -> Result<(), AllocError>
        ensures put { OnOk result (self.new ≡ self.old ++ bytes.now) }
        ensures unchanged { OnErr result (self.new ≡ self.old) }
    {
        self.written.extend_from_slice(bytes)
    }

    /// Puts the number's decimal digits at the end, behind a `-` if it is negative. An error leaves
    /// the text as it was.
    pub fn put_number<I: Integer>(&mut self, n: I) -> Result<(), AllocError>
        ensures put { OnOk result (self.new ≡ self.old ++ I.text n) }
        ensures unchanged { OnErr result (self.new ≡ self.old) }
    {
        let mut buffer = Buffer::new();
        self.written.extend_from_slice(buffer.format(n).as_bytes())
    }

    /// Puts the line of a word and a number at the end. An error may leave a first part of it.
    pub fn put_number_line(&mut self, word: &[u8], n: u128) -> Result<(), AllocError>
        ensures { OnOk result (self.new ≡ self.old ++ number_line word.now n) }
    {
        self.put(word)?;
        self.put(b" ")?;
        self.put_number(n)?;
        self.put(b"\n")
    }

    /// Takes all bytes out; the memory stays.
    pub fn clear(&mut self)
        ensures { self.new ≡ [] }
    {
        self.written.clear();
    }

    /// The bytes of the text.
    pub fn bytes(&self) -> &[u8]
        ensures { result.now ≡ self.now }
    {
        &self.written
    }

    /// Writes the text to a sink, and takes all bytes out. At an error the sink holds a first part of it.
    pub fn flush<K: Sink>(&mut self, sink: &mut K) -> Result<(), Failed>
        ensures ok { OnOk result (IsTrue K.tells → K.written sink.new ≡ K.written sink.old ++ self.old) }
        ensures empty { OnOk result (self.new ≡ []) }
        ensures quiet { OnOk result (K.faults sink.new ≡ K.faults sink.old) }
        ensures prefix { OnErr result
            (IsTrue K.tells → AppendsPart (K.written sink.old) (K.written sink.new) self.old) }
        ensures failed { OnErr result (Rose (K.faults sink.old) (K.faults sink.new)) }
        ensures faults_kept { K.faults sink.old ≤ K.faults sink.new }
    {
        write_whole(sink, &self.written)?;
        self.written.clear();
        Ok(())
    }
}
