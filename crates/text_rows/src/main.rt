//! Tells rows of devices, tokens, numbers, trees of nets, reports and runs of grbound, as standard input
//! says.
//!
//! Each line of standard input is printed. One of these has its answer behind it:
//!
//! - `shelf CALL NAME` reads the text of a name from a shelf of memory that holds "xyz" under "b",
//!   gives it byte by byte, and fails at the call of this number (0: none);
//! - `sure NAME` reads it from a shelf that never fails, and writes to a sink that never fails;
//! - `file NAME` reads a file;
//! - `sink ROOM MOST CALL` writes "abcdef" to a sink of memory with so much room that takes at most
//!   so many bytes in a call, and fails at the call of this number;
//! - `stream ROOM MOST INTERRUPTED BROKEN` writes it to a stream with so much room that takes at most
//!   so many bytes in a call, whose first calls, so many, are interrupted, and of which the call of
//!   the last number fails (0: none);
//! - `digits INTERRUPTED BROKEN` reads a file with such calls, which gives three bytes, one in a call:
//!   the last digit of the call's number;
//! - `tokens PIECE LIMIT WORD ..` reads the tokens of a text, which comes in pieces of so many bytes
//!   and may have so many. The text is the words without blanks between them, but that `CR`, `LF`,
//!   `TAB` and `BLANK` stand for these bytes;
//! - `next PIECE LIMIT WORD ..` takes the next token of such a text twice;
//! - `steps PIECE LIMIT WORD ..` reads of such a text the word "grid", a number from 0 to 9, a token
//!   or the end, and the word "end";
//! - `ahead SIZE` takes the first token of a text of so many bytes that is "grid" and blanks, and
//!   counts the bytes that were not read;
//! - `whole LOW HIGH TEXT` reads a whole number in a range, `natural TEXT` one up to 64 in at most 20
//!   digits;
//! - `join NUMBER NUMBER` puts a word and numbers together;
//! - `tree ROUTE` and `runs ROUTE` tell the tree and the straight runs of the edges of a net;
//! - `greatest` tells the report with the greatest numbers;
//! - `bound SHELF OUT ERR WORD ..` runs grbound's command over devices of memory, whose calls of these
//!   numbers fail (0: none), and tells its status and what out and err gained. The shelf holds a small
//!   design under `design`, and its first tokens under `cut`;
//! - `calls DEVICE MOST WORD ..` does so once for each call of the device up to that number, and tells
//!   how much of the text without a fault out and err gained;
//! - `rooms WORD ..` does so with room on out for 0 bytes, 1, and so on, and tells how many are too few.
#![tactic(auto)]

mod bounds;
mod calls;
mod devices;
mod edges;
mod files;
mod given;
mod numbers;
mod tellings;
mod texts;
mod tokens;

use crate::edges::Asked;
use crate::tokens::Reading;
use gr_io::{HostSink, Sink, write_whole};
use gr_text::Text;
use std::alloc::AllocError;
use std::io;
use std::io::ErrorKind;
use std::rt::Files;
use std::thread::Threads;

/// Puts a line and its answer at the end of the text.
fn put_row<R: AllocGlobal + Files + Threads + Sync>(
    rt: &R,
    line: &str,
    told: &mut Text,
) -> Result<(), AllocError> {
    tellings::put_line(line.as_bytes(), told)?;
    let (command, rest) = line.split_once(' ').unwrap_or((line, ""));
    let alloc = rt.alloc();
    match command {
        "shelf" => devices::put_shelf(alloc, rest, told),
        "sure" => devices::put_sure(alloc, rest, told),
        "file" => devices::put_file(rt, rest, told),
        "sink" => devices::put_sink(alloc, rest, told),
        "stream" => devices::put_stream(alloc, rest, told),
        "digits" => devices::put_digits(alloc, rest, told),
        "tokens" => tokens::put_reading(alloc, Reading::All, rest, told),
        "next" => tokens::put_reading(alloc, Reading::Next, rest, told),
        "steps" => tokens::put_reading(alloc, Reading::Steps, rest, told),
        "ahead" => tokens::put_ahead(alloc, rest, told),
        "whole" => numbers::put_whole(rest, told),
        "natural" => numbers::put_natural(rest, told),
        "join" => numbers::put_joined(rest, told),
        "tree" => edges::put_edges(alloc, Asked::Tree, rest, told),
        "runs" => edges::put_edges(alloc, Asked::Runs, rest, told),
        "greatest" => texts::put_greatest(alloc, told),
        "bound" => bounds::put_bound(rt, alloc, rest, told),
        "calls" => bounds::put_calls(rt, alloc, rest, told),
        "rooms" => bounds::put_rooms(rt, alloc, rest, told),
        _ => Ok(()),
    }
}

/// Writes a line in one call, and puts how many bytes that took at the end of the text.
fn put_written<K: Sink>(out: &mut K, told: &mut Text) -> Result<(), AllocError> {
    let count = out.write(b"written\n").unwrap_or(0);
    tellings::put_number_line(count, told)
}

fn main(rt: HostRuntime) -> io::Result<()> {
    texts::worked_rows();
    let mut told = Text::new(rt.alloc());
    let mut out = HostSink::new(rt.stdout());
    put_written(&mut out, &mut told)?;
    for line in rt.lines(rt.alloc()) {
        put_row(&rt, &line?, &mut told)?;
    }
    if write_whole(&mut out, told.bytes()).is_err() {
        return Err(io::Error::from(ErrorKind::BrokenPipe));
    }
    Ok(())
}
