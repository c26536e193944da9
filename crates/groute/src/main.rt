//! `groute`: a global router over files and standard streams, which tells on a terminal how far it has come.
#![tactic(auto)]

use command_form::{Stop, finish};
use gr_io::{HostShelf, HostSink, words};
use router_top::{own_rules, run};
use run_progress::{Below, Progress};
use std::io::ErrorKind;
use std::mem::forget;
use std::process::ExitCode;
use word_reader::{Order, Program, read_words};

fn main(rt: HostRuntime) -> ExitCode {
    let words = match words(&rt) {
        Ok(words) => words,
        Err(error) if error.kind() == ErrorKind::OutOfMemory => {
            let mut err = HostSink::new(rt.stderr());
            let end = Err(Stop::NoMemory);
            return ExitCode::from(finish(rt.alloc(), Program::Groute, &mut err, end));
        }
        // Words that are no text give no order.
        Err(_) => Vec::new(rt.alloc()),
    };
    let progress = Progress::new(&rt, rt.stderr(), rounds_of(&words));
    let mut shelf = HostShelf::new(&rt);
    let mut out = HostSink::new(Below::new(&progress, rt.stdout()));
    let mut err = HostSink::new(Below::new(&progress, rt.stderr()));
    // Functions are made here and handed in, so that their contracts go with them.
    let rules = own_rules!();
    let ended = run(
        &rt,
        rt.alloc(),
        &words,
        &mut shelf,
        &mut out,
        &mut err,
        &progress,
        &rules,
    );
    // Where nothing was written.
    progress.clear();
    let status = ended.status;
    // The system takes back the memory of a process that ends. To let go of it entry by entry and tree by
    // tree takes longer.
    forget(ended);
    ExitCode::from(status)
}

/// The most rounds that the words ask for.
fn rounds_of(words: &[String]) -> u32 {
    match read_words(Program::Groute, words) {
        Ok(Order::Route { options, .. } | Order::Trial { options, .. }) => options.rounds,
        _ => 0,
    }
}
