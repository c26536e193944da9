//! What a run writes beside its progress.
ghost use Rattle.std.specs.Io.{WritesAtMost};
ghost use Rattle.std.specs.Io.KnownBytes.{WriteAppends, Keeps};

use crate::progress::Progress;
use std::io;
use std::io::Write;
use std::time::Clock;

/// A stream before whose bytes the line of progress is taken away.
#[derive(Drop)]
pub struct Below<'a, C: Clock, W: Write> {
    progress: &'a Progress<'a, C>,
    writer: W,
}

impl<'a, C: Clock, W: Write> Below<'a, C, W> {
    pub fn new(progress: &'a Progress<'a, C>, writer: W) -> Self {
        Below { progress, writer }
    }
}

impl<C: Clock, W: Write> Write for Below<'_, C, W> {
    ghost contents = { λ s. W.contents s.writer };

    fn write(&mut self, bytes: &[u8]) -> io::Result<usize>
        ensures bound { WritesAtMost result bytes.now }
        ensures bytes { WriteAppends (W.contents self.old.writer) (W.contents self.new.writer) result bytes.now }
    {
        self.progress.clear();
        self.writer.write(bytes)
    }

    fn flush(&mut self) -> io::Result<()>
        ensures bytes { Keeps (W.contents self.old.writer) (W.contents self.new.writer) }
    {
        self.writer.flush()
    }
}
