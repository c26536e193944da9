//! The lines of standard input, and what each asks for.
use crate::bench::{Bench, Left};
use crate::chase::ChasingGate;
use crate::devices::Devices;
use crate::gates::{HoldingGate, Whom};
use crate::recorder::RecordingGate;
use crate::{entries, told};
use cost_rules::Rules;
use gr_text::Text;
use ripup_workers::OpenGate;
use std::alloc::{AllocError, Global};
use std::ops::Range;
use std::sync::Wait;
use std::thread::Threads;

/// Does what a line asks for, and puts what is to be printed of it.
pub(crate) fn carry_out<R: AllocGlobal + Threads + Wait + Sync>(
    rt: &R,
    bench: &mut Bench,
    rules: &Rules,
    line: &str,
    told: &mut Text,
) -> Result<(), AllocError> {
    let (command, rest) = word_in(line);
    match command {
        "text" => bench.begin(rt.alloc(), rest),
        "|" => bench.add_line(rest, "\n"),
        "crlf" => bench.add_line(rest, "\r\n"),
        "&" => bench.add(rest),
        "times" => add_times(bench, rest),
        "set" => {
            bench.devices = changed(bench.devices, rest);
            Ok(())
        }
        "ample" => {
            bench.devices = Devices::ample();
            Ok(())
        }
        "run" | "brief" | "entries" | "hold" | "keep" | "chase" | "stops" | "each" | "cut" => {
            put_line(told, line)?;
            put_runs(rt, bench, rules, command, rest, told)
        }
        _ => put_line(told, line),
    }
}

/// The line itself.
fn put_line(told: &mut Text, line: &str) -> Result<(), AllocError> {
    told.put(line.as_bytes())?;
    told.put(b"\n")
}

/// The words of a line.
fn words_of(alloc: Global, line: &str) -> Result<Vec<String>, AllocError> {
    let mut words = Vec::new(alloc);
    for word in line.split_whitespace() {
        words.push(String::from_str(alloc, word)?)?;
    }
    Ok(words)
}

/// The first word of a line's rest, and what follows it.
fn word_in(rest: &str) -> (&str, &str) {
    rest.split_once(' ').unwrap_or((rest, ""))
}

/// A number and what follows it.
fn number_in(rest: &str) -> (u64, &str) {
    let (number, rest) = word_in(rest);
    (number.parse::<u64>().unwrap_or(0), rest)
}

fn add_times(bench: &mut Bench, rest: &str) -> Result<(), AllocError> {
    let (times, part) = number_in(rest);
    for _ in 0..times {
        bench.add(part)?;
    }
    Ok(())
}

/// The devices with the change that the rest of a line names.
fn changed(devices: Devices, rest: &str) -> Devices {
    let (name, rest) = word_in(rest);
    devices.with(name, number_in(rest).0).unwrap_or(devices)
}

/// Puts what is told of the runs that a line asks for.
fn put_runs<R: AllocGlobal + Threads + Wait + Sync>(
    rt: &R,
    bench: &Bench,
    rules: &Rules,
    command: &str,
    rest: &str,
    told: &mut Text,
) -> Result<(), AllocError> {
    match command {
        "each" => {
            let (device, rest) = word_in(rest);
            let (most, rest) = number_in(rest);
            let steps = 1..(most as usize).saturating_add(1);
            put_sweep(rt, bench, rules, rest, Sweep::Call(device), steps, told)
        }
        "cut" => {
            let (name, rest) = word_in(rest);
            let steps = 0..bench.size_of(name).saturating_add(1);
            put_sweep(rt, bench, rules, rest, Sweep::Cut(name), steps, told)
        }
        "hold" => {
            let (worker, rest) = number_in(rest);
            put_held(rt, bench, rules, Whom::Worker(worker), rest, told)
        }
        "keep" => {
            let (search, rest) = number_in(rest);
            put_held(rt, bench, rules, Whom::Search(search), rest, told)
        }
        "chase" => put_chase(rt, bench, rules, rest, told),
        "stops" => put_stops(rt, bench, rules, rest, told),
        _ => {
            let words = words_of(rt.alloc(), rest)?;
            put_run(rt, bench, rules, &words, command, told)
        }
    }
}

/// What a command tells of a run.
fn put_run<R: AllocGlobal + Threads + Wait + Sync>(
    rt: &R,
    bench: &Bench,
    rules: &Rules,
    words: &[String],
    command: &str,
    told: &mut Text,
) -> Result<(), AllocError> {
    let left = bench.run(rt, &OpenGate, rules, bench.devices, None, words)?;
    match command {
        "brief" => told::put_brief(rt.alloc(), told, &left),
        "entries" => entries::put_entries(told, &left),
        _ => told::put_whole(told, &left),
    }
}

/// What is told of a run in which this worker waits at a search for so many claims of the others.
fn put_held<R: AllocGlobal + Threads + Wait + Sync>(
    rt: &R,
    bench: &Bench,
    rules: &Rules,
    whom: Whom,
    rest: &str,
    told: &mut Text,
) -> Result<(), AllocError> {
    let (claims, rest) = number_in(rest);
    let words = words_of(rt.alloc(), rest)?;
    let gate = HoldingGate::new(whom, claims);
    let left = bench.run(rt, &gate, rules, bench.devices, None, &words)?;
    told::put_meeting(rt.alloc(), told, &left, gate.is_passed())
}

/// What is told of a run in which a worker's plans are overtaken at so many searches.
fn put_chase<R: AllocGlobal + Threads + Wait + Sync>(
    rt: &R,
    bench: &Bench,
    rules: &Rules,
    rest: &str,
    told: &mut Text,
) -> Result<(), AllocError> {
    let (times, rest) = number_in(rest);
    let words = words_of(rt.alloc(), rest)?;
    let gate = ChasingGate::new(times);
    let left = bench.run(rt, &gate, rules, bench.devices, None, &words)?;
    told::put_chase(told, &left, gate.is_passed())
}

/// Whether a run's stops are those of its history.
fn put_stops<R: AllocGlobal + Threads + Wait + Sync>(
    rt: &R,
    bench: &Bench,
    rules: &Rules,
    rest: &str,
    told: &mut Text,
) -> Result<(), AllocError> {
    let words = words_of(rt.alloc(), rest)?;
    let gate = RecordingGate::new(rt.alloc());
    let left = bench.run(rt, &gate, rules, bench.devices, None, &words)?;
    let callers = u32::try_from(left.ended.hands.len()).unwrap_or(u32::MAX);
    let agrees = match &left.ended.book {
        Some(book) => gate.agrees(book.state().history(), callers),
        None => false,
    };
    told::put_stops(told, &left, agrees)
}

/// What changes from run to run: the call of a device that fails, or how much is left of a text.
#[derive(Clone, Copy)]
enum Sweep<'a> {
    Call(&'a str),
    Cut(&'a str),
}

/// The devices, and the text that is cut, at a step of a sweep.
fn setting<'a>(
    devices: Devices,
    sweep: Sweep<'a>,
    step: usize,
) -> (Devices, Option<(&'a str, usize)>) {
    match sweep {
        Sweep::Call(device) => (devices.with(device, step as u64).unwrap_or(devices), None),
        Sweep::Cut(name) => (devices, Some((name, step))),
    }
}

/// A line for each step of a sweep.
fn put_sweep<R: AllocGlobal + Threads + Wait + Sync>(
    rt: &R,
    bench: &Bench,
    rules: &Rules,
    rest: &str,
    sweep: Sweep<'_>,
    steps: Range<usize>,
    told: &mut Text,
) -> Result<(), AllocError> {
    let words = words_of(rt.alloc(), rest)?;
    put_steps(rt, bench, rules, &words, sweep, steps, told)
}

/// A line for each step of a sweep, beside what the words leave without it.
fn put_steps<R: AllocGlobal + Threads + Wait + Sync>(
    rt: &R,
    bench: &Bench,
    rules: &Rules,
    words: &[String],
    sweep: Sweep<'_>,
    steps: Range<usize>,
    told: &mut Text,
) -> Result<(), AllocError> {
    let done = bench.run(rt, &OpenGate, rules, bench.devices, None, words)?;
    for step in steps {
        put_step(rt, bench, rules, words, sweep, step, &done, told)?;
    }
    Ok(())
}

fn put_step<R: AllocGlobal + Threads + Wait + Sync>(
    rt: &R,
    bench: &Bench,
    rules: &Rules,
    words: &[String],
    sweep: Sweep<'_>,
    step: usize,
    done: &Left,
    told: &mut Text,
) -> Result<(), AllocError> {
    let (devices, cut) = setting(bench.devices, sweep, step);
    let left = bench.run(rt, &OpenGate, rules, devices, cut, words)?;
    told::put_step(told, step, &left, done)
}
