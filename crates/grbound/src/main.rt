//! `grbound`: what no router can do better on a design, over files and standard streams.
#![tactic(auto)]

use bound_top::bound;
use command_form::{Stop, finish};
use gr_io::{HostShelf, HostSink, words};
use std::io::ErrorKind;
use std::process::ExitCode;
use word_reader::Program;

fn main(rt: HostRuntime) -> ExitCode {
    let mut shelf = HostShelf::new(&rt);
    let mut out = HostSink::new(rt.stdout());
    let mut err = HostSink::new(rt.stderr());
    let words = match words(&rt) {
        Ok(words) => words,
        Err(error) if error.kind() == ErrorKind::OutOfMemory => {
            let end = Err(Stop::NoMemory);
            return ExitCode::from(finish(rt.alloc(), Program::Grbound, &mut err, end));
        }
        // Words that are no text ask for nothing.
        Err(_) => Vec::new(rt.alloc()),
    };
    ExitCode::from(bound(&rt, rt.alloc(), &words, &mut shelf, &mut out, &mut err))
}
