//! Tells delays, required times and the text of buffers, row by row, as standard input says.
//!
//! A line of standard input is one of these; each other line is printed as it stands.
//!
//! - `design TEXT`, `route TEXT` and `library TEXT` give the three texts of the rows that follow; the
//!   design has one net;
//! - `buffers CELL ..` prints the text of buffers with one of the library's first kind at each of
//!   these cells, and a line with the delay to the last node of the net's tree;
//! - `nodes` prints a line for each node: whether a buffer may stand there, and which signal its
//!   sinks want;
//! - `lists STEP / STEP ..` prints the loads and times of a list of choices of buffers after each of
//!   these steps: `leaf LOAD TIME` begins with a leaf, `wire R C` goes along an edge, `offer` offers
//!   the library's kinds, `merge LOAD TIME` joins a leaf on a branch beside.
#![tactic(auto)]

mod buffered;
mod given;
mod lists;
mod nodes;

use crate::given::{Asked, Given};
use gr_io::{HostSink, write_whole};
use gr_text::Text;
use std::alloc::Global;

/// Does what a line asks for, and gives what is to be printed of it.
fn carry_out(alloc: Global, given: &mut Given, line: &str) -> anyhow::Result<Text> {
    let (command, rest) = line.split_once(' ').unwrap_or((line, ""));
    match command {
        "design" => given.design = String::from_str(alloc, rest)?,
        "route" => given.route = String::from_str(alloc, rest)?,
        "library" => given.library = String::from_str(alloc, rest)?,
        "buffers" => return given.told(alloc, Asked::Buffers(rest)),
        "nodes" => return given.told(alloc, Asked::Nodes),
        "lists" => return given.told(alloc, Asked::Lists(rest)),
        _ => return echoed(alloc, line),
    }
    Ok(Text::new(alloc))
}

/// The line itself.
fn echoed(alloc: Global, line: &str) -> anyhow::Result<Text> {
    let mut told = Text::new(alloc);
    told.put(line.as_bytes())?;
    told.put(b"\n")?;
    Ok(told)
}

fn main(rt: HostRuntime) -> anyhow::Result<()> {
    let mut out = HostSink::new(rt.stdout());
    let mut given = Given::none(rt.alloc());
    for line in rt.lines(rt.alloc()) {
        let told = carry_out(rt.alloc(), &mut given, &line?)?;
        if write_whole(&mut out, told.bytes()).is_err() {
            break;
        }
    }
    Ok(())
}
