//! Why a command stopped, and how it is told.
ghost use Rattle.std.specs.Prelude.{◌≡◌};
ghost use Rattle.gr_io.specs.Devices.{device_of, GainsLine};
ghost use Rattle.command_form.specs.Stops.{status_done, status_of, TellsLine, IsTold, Finishes};

use crate::line::{fault_line, memory_line, net_line, read_line, usage_line};
use gr_io::{Sink, Slot, write_whole};
use gr_text::Text;
use std::alloc::{AllocError, Global};
use word_reader::Program;

/// How a command that was done found the routes.
#[derive(Clone, Copy)]
pub enum Outcome {
    Whole,
    /// Some routed net isn't joined.
    Open,
}

/// Why a command stopped.
#[derive(Clone, Copy)]
pub enum Stop {
    Usage,
    /// A text is at fault: which text, the number of its first fault in the text's grammar, and of the
    /// token at which it is found.
    Fault { text: Slot, number: u8, token: u64 },
    /// The edges of a solution's net of this id aren't a tree.
    NotTree { id: u32 },
    ReadFailed,
    WriteFailed,
    NoMemory,
}

/// The status that the program ends with where a command was done.
fn status_done(outcome: Outcome) -> u8
    ensures { result ≡ status_done outcome }
{
    match outcome {
        Outcome::Whole => 0,
        Outcome::Open => 1,
    }
}

/// The status that the program ends with where a command stopped.
fn status(stop: Stop) -> u8
    ensures { result ≡ status_of stop }
{
    match stop {
        Stop::Usage => 2,
        Stop::Fault { text, .. } => match text {
            Slot::Design => 3,
            Slot::Library => 4,
            Slot::Solution => 5,
        },
        Stop::NotTree { .. } => 5,
        Stop::ReadFailed => 6,
        Stop::WriteFailed => 7,
        Stop::NoMemory => 8,
    }
}

/// The status of a program's command, whose stop is told on err.
pub fn finish<E: Sink>(
    alloc: Global,
    program: Program,
    err: &mut E,
    done: Result<Outcome, Stop>,
) -> u8
    ensures { Finishes program (device_of E.tells E.faults E.written err.old err.new) done result }
{
    match done {
        Ok(outcome) => status_done(outcome),
        Err(stop) => status(tell(alloc, program, err, stop)),
    }
}

/// Tells on err why a command stopped, and says what was told: want of memory where there is none
/// for a line. A fault of out is not told.
fn tell<E: Sink>(alloc: Global, program: Program, err: &mut E, stop: Stop) -> Stop
    ensures { IsTold program (device_of E.tells E.faults E.written err.old err.new) stop result }
{
    match stop {
        Stop::Usage => {
            write_line(err, usage_line(program));
            stop
        }
        Stop::Fault {
            text,
            number,
            token,
        } => {
            let line = fault_line(alloc, program, text, number, token);
            tell_line(program, err, stop, line)
        }
        Stop::NotTree { id } => tell_line(program, err, stop, net_line(alloc, program, id)),
        Stop::ReadFailed => {
            write_line(err, read_line(program));
            stop
        }
        Stop::WriteFailed => stop,
        Stop::NoMemory => {
            write_line(err, memory_line(program));
            stop
        }
    }
}

/// Tells on err a line on which a command stopped, and says what was told: want of memory where
/// there was none for the line.
fn tell_line<E: Sink>(
    program: Program,
    err: &mut E,
    stop: Stop,
    line: Result<Text, AllocError>,
) -> Stop
    ensures { TellsLine program (device_of E.tells E.faults E.written err.old err.new) line stop result }
{
    let Ok(line) = line else {
        write_line(err, memory_line(program));
        return Stop::NoMemory;
    };
    write_line(err, line.bytes());
    stop
}

/// Writes a line. A fault is err's own, and changes no status.
fn write_line<E: Sink>(err: &mut E, line: &[u8])
    ensures { GainsLine (device_of E.tells E.faults E.written err.old err.new) line.now }
{
    let _ = write_whole(err, line);
}
