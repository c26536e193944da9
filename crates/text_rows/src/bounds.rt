//! Runs of grbound's command over devices of memory.
use crate::tellings::{number_in, put_line, put_number_line};
use bound_top::bound;
use gr_io::{MemoryShelf, MemorySink};
use gr_text::Text;
use std::alloc::{AllocError, Global};
use std::thread::Threads;

/// Three nets that leave one tile, which two wires lead from.
const DESIGN: &str = "grid 4 4 2\nvertical capacity 0 2\nhorizontal capacity 2 0\n\
    minimum width 1 1\nminimum spacing 1 1\nvia spacing 1 1\n0 0 10 10\nnum net 3\n\
    a 0 2 1\n5 5 1\n35 5 1\nb 1 2 1\n5 5 1\n5 35 1\nc 2 2 1\n5 5 1\n35 35 1\n";

/// The design's text but for its end.
const CUT: &str = "grid 4 4 2\nvertical capacity 0 2\nhorizontal capacity 2";

/// The most bytes that a device gives or takes in a call.
const PIECE: u32 = 32;

/// More bytes than are written.
const ROOM: u64 = 1000;

/// The calls that fail of each device, by number (0: none), and the bytes for which out has room.
#[derive(Clone, Copy)]
struct Faults {
    shelf: u64,
    out: u64,
    err: u64,
    room: u64,
}

/// Devices of which no call fails.
const SOUND: Faults = Faults {
    shelf: 0,
    out: 0,
    err: 0,
    room: ROOM,
};

impl Faults {
    /// No fault but at a call of the device with this name.
    fn at_call(device: &str, call: u64) -> Faults {
        match device {
            "shelf" => Faults {
                shelf: call,
                ..SOUND
            },
            "out" => Faults { out: call, ..SOUND },
            _ => Faults { err: call, ..SOUND },
        }
    }
}

/// What a run left.
#[derive(Drop)]
struct Left {
    status: u8,
    out: MemorySink,
    err: MemorySink,
}

/// Runs these words over a shelf that holds the design under `design` and its cut text under `cut`.
fn run<R: Threads + Sync>(
    rt: &R,
    alloc: Global,
    faults: Faults,
    words: &[String],
) -> Result<Left, AllocError> {
    let mut shelf = MemoryShelf::new(alloc, vec![in alloc; faults.shelf]?);
    hold(alloc, &mut shelf, "design", DESIGN)?;
    hold(alloc, &mut shelf, "cut", CUT)?;
    shelf.piece(PIECE);
    let mut out = MemorySink::new(alloc, faults.room, PIECE, vec![in alloc; faults.out]?)?;
    let mut err = MemorySink::new(alloc, ROOM, PIECE, vec![in alloc; faults.err]?)?;
    let status = bound(rt, alloc, words, &mut shelf, &mut out, &mut err);
    Ok(Left { status, out, err })
}

/// Holds a text under a name, if the shelf has none of that name.
fn hold(alloc: Global, shelf: &mut MemoryShelf, name: &str, text: &str) -> Result<(), AllocError> {
    if shelf.holds(name) {
        return Ok(());
    }
    shelf.hold(alloc, name, text.as_bytes())
}

/// The words of a line.
fn words_of(alloc: Global, line: &str) -> Result<Vec<String>, AllocError> {
    let mut words = Vec::new(alloc);
    for word in line.split_whitespace() {
        words.push(String::from_str(alloc, word)?)?;
    }
    Ok(words)
}

/// The status of a run, and what out and err gained, where these calls of the shelf, of out and of err
/// fail.
pub(crate) fn put_bound<R: Threads + Sync>(
    rt: &R,
    alloc: Global,
    rest: &str,
    told: &mut Text,
) -> Result<(), AllocError> {
    let (shelf, rest) = number_in(rest);
    let (out, rest) = number_in(rest);
    let (err, rest) = number_in(rest);
    let faults = Faults {
        shelf,
        out,
        err,
        room: ROOM,
    };
    let words = words_of(alloc, rest)?;
    let left = run(rt, alloc, faults, &words)?;
    told.put(b"status ")?;
    put_number_line(left.status, told)?;
    put_gained(b"out ", left.out.bytes(), told)?;
    put_gained(b"err ", left.err.bytes(), told)
}

/// Puts how many bytes a device gained, and these, with a line's end behind them.
fn put_gained(name: &[u8], bytes: &[u8], told: &mut Text) -> Result<(), AllocError> {
    told.put(name)?;
    put_number_line(bytes.len(), told)?;
    if bytes.is_empty() {
        return Ok(());
    }
    put_line(bytes.strip_suffix(b"\n").unwrap_or(bytes), told)
}

/// A line for each call of a device that fails, up to a number.
pub(crate) fn put_calls<R: Threads + Sync>(
    rt: &R,
    alloc: Global,
    rest: &str,
    told: &mut Text,
) -> Result<(), AllocError> {
    let (device, rest) = rest.split_once(' ').unwrap_or((rest, ""));
    let (most, rest) = number_in(rest);
    let words = words_of(alloc, rest)?;
    let sound = run(rt, alloc, SOUND, &words)?;
    for call in 0..most {
        let call = call + 1;
        let left = run(rt, alloc, Faults::at_call(device, call), &words)?;
        put_call(call, &left, &sound, told)?;
    }
    Ok(())
}

/// What a run left one of whose calls failed, beside one without a fault.
fn put_call(call: u64, left: &Left, sound: &Left, told: &mut Text) -> Result<(), AllocError> {
    told.put_number(call)?;
    told.put(b": status ")?;
    told.put_number(left.status)?;
    put_share(b", out ", left.out.bytes(), sound.out.bytes(), told)?;
    put_share(b", err ", left.err.bytes(), sound.err.bytes(), told)?;
    told.put(b"\n")
}

/// Puts how much of a text a device gained, or what else.
fn put_share(name: &[u8], gained: &[u8], text: &[u8], told: &mut Text) -> Result<(), AllocError> {
    told.put(name)?;
    if gained.is_empty() {
        return told.put(b"nothing");
    }
    if text.starts_with(gained) {
        told.put(b"the first ")?;
        return told.put_number(gained.len());
    }
    told.put(gained.strip_suffix(b"\n").unwrap_or(gained))
}

/// How many bytes of room on out are too few, from 0 on: a write fails, out has the text's first bytes,
/// as many as there is room for, and err has none.
pub(crate) fn put_rooms<R: Threads + Sync>(
    rt: &R,
    alloc: Global,
    rest: &str,
    told: &mut Text,
) -> Result<(), AllocError> {
    let words = words_of(alloc, rest)?;
    let sound = run(rt, alloc, SOUND, &words)?;
    for room in 0..ROOM {
        let left = run(rt, alloc, Faults { room, ..SOUND }, &words)?;
        if !is_full(&left, room, sound.out.bytes()) {
            return put_number_line(room, told);
        }
    }
    put_number_line(ROOM, told)
}

fn is_full(left: &Left, room: u64, text: &[u8]) -> bool {
    let gained = left.out.bytes();
    left.status == 7
        && gained.len() as u64 == room
        && text.starts_with(gained)
        && left.err.bytes().is_empty()
}
