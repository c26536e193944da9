//! Devices over memory, devices that never fail, files and streams.
ghost use Rattle.std.specs.Prelude.{IsTrue};

use crate::calls::{Calls, Stream};
use crate::files::DigitFiles;
use crate::tellings::{number_in, put_end, put_error, size_in};
use gr_base::Name;
use gr_io::{
    HostShelf, HostSink, MemoryShelf, MemorySink, Shelf, Slot, SureShelf, SureSink, write_whole,
};
use gr_text::Text;
use std::alloc::{AllocError, Global};
use std::rt::Files;

/// Puts the text of a name, as it is read, at the end of the text, or why it isn't read.
fn put_read<S: Shelf>(
    alloc: Global,
    shelf: &mut S,
    name: &str,
    told: &mut Text,
) -> Result<(), AllocError> {
    match shelf.reach(alloc, Slot::Library, name) {
        Ok(()) => put_pieces(shelf, told),
        Err(error) => put_error(alloc, &error, told),
    }
}

/// Puts the pieces in which a text comes, each of 8 bytes at most, at the end of the text.
fn put_pieces<S: Shelf>(shelf: &mut S, told: &mut Text) -> Result<(), AllocError>
    requires { IsTrue (S.reached shelf.old Slot.Library) }
{
    let mut buf = [0; 8];
    for _piece in 0..u64::MAX {
        let Ok(count) = shelf.read(Slot::Library, &mut buf) else {
            return put_end(false, told);
        };
        if count == 0 {
            break;
        }
        told.put(&buf[..count])?;
        told.put(b" ")?;
    }
    put_end(true, told)
}

/// The text of a name on a shelf that holds "xyz" under "b" and gives it byte by byte, where a call
/// fails.
pub(crate) fn put_shelf(alloc: Global, rest: &str, told: &mut Text) -> Result<(), AllocError> {
    let (call, name) = number_in(rest);
    let mut shelf = MemoryShelf::new(alloc, vec![in alloc; call]?);
    shelf.hold(alloc, "b", b"xyz")?;
    shelf.piece(1);
    put_read(alloc, &mut shelf, name, told)
}

/// The text of a name on a shelf that never fails, and how a sink that never fails takes a text.
pub(crate) fn put_sure(alloc: Global, name: &str, told: &mut Text) -> Result<(), AllocError> {
    let mut shelf = sure_shelf(alloc)?;
    put_read(alloc, &mut shelf, name, told)?;
    put_end(write_whole(&mut SureSink::new(), b"abcdef").is_ok(), told)
}

/// A shelf that never fails.
fn sure_shelf(alloc: Global) -> Result<SureShelf, AllocError> {
    let design = Name::from_bytes(alloc, b"design")?;
    let library = Name::from_bytes(alloc, b"library")?;
    let solution = Name::from_bytes(alloc, b"solution")?;
    Ok(SureShelf::new(design, library, solution))
}

/// The text of a file.
pub(crate) fn put_file<R: AllocGlobal + Files>(
    rt: &R,
    name: &str,
    told: &mut Text,
) -> Result<(), AllocError> {
    let mut shelf = HostShelf::new(rt);
    put_read(rt.alloc(), &mut shelf, name, told)
}

/// What a sink of memory gets of "abcdef", by its room, the most bytes that it takes in a call, and
/// the call that fails.
pub(crate) fn put_sink(alloc: Global, rest: &str, told: &mut Text) -> Result<(), AllocError> {
    let (room, rest) = number_in(rest);
    let (most, rest) = size_in(rest);
    let (call, _) = number_in(rest);
    let mut sink = MemorySink::new(alloc, room, most, vec![in alloc; call]?)?;
    let whole = write_whole(&mut sink, b"abcdef").is_ok();
    put_kept(sink.bytes(), whole, told)
}

/// Puts what a sink got, and whether that was all.
fn put_kept(bytes: &[u8], whole: bool, told: &mut Text) -> Result<(), AllocError> {
    told.put(bytes)?;
    told.put(b" ")?;
    put_end(whole, told)
}

/// What a stream gets of "abcdef", by its room, the most bytes that it takes in a call, and which of
/// its calls fail.
pub(crate) fn put_stream(alloc: Global, rest: &str, told: &mut Text) -> Result<(), AllocError> {
    let (room, rest) = number_in(rest);
    let (most, rest) = size_in(rest);
    let mut stream = Stream {
        bytes: Vec::new(alloc),
        room: room as usize,
        most: most as usize,
        calls: Calls::new(rest),
    };
    let whole = write_whole(&mut HostSink::new(&mut stream), b"abcdef").is_ok();
    put_kept(&stream.bytes, whole, told)
}

/// The text of a file some of whose calls fail.
pub(crate) fn put_digits(alloc: Global, rest: &str, told: &mut Text) -> Result<(), AllocError> {
    let files = DigitFiles {
        calls: Calls::new(rest),
    };
    put_read(alloc, &mut HostShelf::new(files), "digits", told)
}
