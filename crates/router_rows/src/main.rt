//! Runs the router's command over texts and devices in memory, case by case, as standard input says.
//!
//! A line of standard input is one of these; each other line is printed as it stands.
//!
//! - `text NAME` begins a text, in place of an earlier one of that name;
//! - `| PART` adds a line to it, `crlf PART` one that ends with CR LF, `& PART` a part without a
//!   line's end, `times N PART` so many parts;
//! - `set DEVICE N` sets a bound of the devices, or the call of one that fails (0: none); `ample`
//!   sets all back;
//! - `run WORD ..` runs the command, and prints its status, what out and err gained, and the book;
//! - `brief WORD ..` runs it, and prints its status, the five numbers that err gained first, and the nets
//!   of each round: all that is the same whatever the order in which several workers call;
//! - `entries WORD ..` runs it, and prints what out gained as it stands, its status, each entry of the book's
//!   history, with a claim's tree as pairs of a cell and its parent's, and the length of the chosen part;
//! - `hold WORKER CLAIMS WORD ..` does so while the worker of that number waits at its first search until
//!   the others have come to so many claims;
//! - `keep SEARCH CLAIMS WORD ..` likewise for whoever comes to that search of all, from 0;
//! - `chase TIMES WORD ..` runs it while behind round 0 a worker waits at each of its first searches, so many
//!   in all, until another has come to one more claim, and the others at theirs until it waits again;
//! - `stops WORD ..` runs it, and prints whether the gate was told the claims and marks of the history, and each
//!   search by the net of the claim behind it;
//! - `each DEVICE N WORD ..` runs it with each call from 1 to N of that device failing, and prints
//!   a line for each;
//! - `cut NAME WORD ..` runs it with each first part of that text in its place, likewise.
#![tactic(auto)]

mod bench;
mod chase;
mod devices;
mod entries;
mod gates;
mod lines;
mod recorder;
mod told;

use crate::bench::Bench;
use gr_io::{HostSink, write_whole};
use gr_text::Text;
use router_top::own_rules;
use std::io;

fn main(rt: HostRuntime) -> io::Result<()> {
    let rules = own_rules!();
    let mut out = HostSink::new(rt.stdout());
    let mut bench = Bench::new(rt.alloc());
    for line in rt.lines(rt.alloc()) {
        let mut told = Text::new(rt.alloc());
        lines::carry_out(&rt, &mut bench, &rules, &line?, &mut told)?;
        if write_whole(&mut out, told.bytes()).is_err() {
            break;
        }
    }
    Ok(())
}
