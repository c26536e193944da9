//! Plays the machine of the rounds, as standard input says.
//!
//! A line of standard input is one of these; each other line is printed as it stands.
//!
//! - `design TEXT` gives the design of the plays that follow;
//! - `play WORKERS ROUNDS STEP ..` takes these steps, one after another, and prints of each whether it was
//!   allowed and in which phase it leaves or finds its worker, of a claim its reply too, and at the end the
//!   round and how many nets are left. A step is `take WORKER NET`, `release WORKER`, `claim WORKER` of the
//!   worker's net for its plan over the whole history, `early WORKER` for its plan from before all entries,
//!   or `mark`. Workers and nets count from 0.
#![tactic(auto)]

mod moves;
mod play;
mod tellings;

use gr_io::{HostSink, write_whole};
use gr_text::Text;
use std::alloc::AllocError;
use std::io;

/// Does what a line asks for, where the design is that of an earlier line.
fn carry_out<R: AllocGlobal>(
    rt: &R,
    design: &mut String,
    line: &str,
    told: &mut Text,
) -> Result<(), AllocError> {
    let alloc = rt.alloc();
    let (command, rest) = line.split_once(' ').unwrap_or((line, ""));
    match command {
        "design" => {
            *design = String::from_str(alloc, rest)?;
            Ok(())
        }
        "play" => play::tell(alloc, design, rest, told),
        _ => {
            told.put(line.as_bytes())?;
            told.put(b"\n")
        }
    }
}

fn main(rt: HostRuntime) -> io::Result<()> {
    let mut out = HostSink::new(rt.stdout());
    let mut design = String::new(rt.alloc());
    for line in rt.lines(rt.alloc()) {
        let mut told = Text::new(rt.alloc());
        carry_out(&rt, &mut design, &line?, &mut told)?;
        if write_whole(&mut out, told.bytes()).is_err() {
            break;
        }
    }
    Ok(())
}
