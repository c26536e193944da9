//! A stream and a file of which some calls fail.
use crate::tellings::number_in;
use std::io::{self, ErrorKind, Read, Write};

/// The calls of a device, of which the first ones may be interrupted, and one may fail.
#[derive(Clone, Copy)]
pub(crate) struct Calls {
    made: u64,
    interrupted: u64,
    broken: u64,
}

impl Calls {
    /// How many are interrupted, and the number of the one that fails (0: none), as a line says.
    pub(crate) fn new(line: &str) -> Self {
        let (interrupted, rest) = number_in(line);
        Calls {
            made: 0,
            interrupted,
            broken: number_in(rest).0,
        }
    }

    /// The number of the next call, or its error.
    fn next(&mut self) -> io::Result<u64> {
        self.made = self.made.saturating_add(1);
        if self.made <= self.interrupted {
            return Err(io::Error::from(ErrorKind::Interrupted));
        }
        if self.made == self.broken {
            return Err(io::Error::from(ErrorKind::BrokenPipe));
        }
        Ok(self.made)
    }
}

/// A stream that keeps what it takes: at most so many bytes in a call, and so many in all.
#[derive(Drop)]
pub(crate) struct Stream {
    pub(crate) bytes: Vec<u8>,
    pub(crate) room: usize,
    pub(crate) most: usize,
    pub(crate) calls: Calls,
}

impl Write for Stream {
    fn write(&mut self, buf: &[u8]) -> io::Result<usize> {
        self.calls.next()?;
        let count = buf.len().min(self.most).min(self.room);
        self.bytes.extend_from_slice(&buf[..count])?;
        self.room -= count;
        Ok(count)
    }

    fn flush(&mut self) -> io::Result<()> {
        Ok(())
    }
}

/// A file that gives one byte in a call, the last digit of the call's number, and three in all.
#[derive(Drop)]
pub(crate) struct Digits {
    left: usize,
    calls: Calls,
}

impl Digits {
    pub(crate) fn new(calls: Calls) -> Self {
        Digits { left: 3, calls }
    }
}

impl Read for Digits {
    fn read(&mut self, buf: &mut [u8]) -> io::Result<usize> {
        let number = self.calls.next()?;
        let count = buf.len().min(self.left).min(1);
        buf[..count].fill(b'0' + (number % 10) as u8);
        self.left -= count;
        Ok(count)
    }
}
