//! What is told of a run.
use crate::bench::Left;
use book_state::{BookState, Call, History, Reply};
use gr_text::Text;
use run_histories::HandLog;
use std::alloc::{AllocError, Global};

/// The most bytes of a text that is printed whole.
const MOST_PRINTED: usize = 2_000;

/// How many numbers a report begins with.
const NUMBERS: usize = 5;

/// The whole of what a run left.
pub(crate) fn put_whole(told: &mut Text, left: &Left) -> Result<(), AllocError> {
    put_status(told, left)?;
    put_text(told, b"out", left.out.bytes())?;
    put_text(told, b"err", left.err.bytes())?;
    if let Some(book) = &left.ended.book {
        put_book(told, book.state())?;
    }
    for log in &left.ended.hands {
        put_hand(told, log)?;
    }
    Ok(())
}

fn put_status(told: &mut Text, left: &Left) -> Result<(), AllocError> {
    told.put(b"status ")?;
    told.put_number(left.ended.status)?;
    told.put(b"\n")
}

/// How a run ended, the five numbers of its report, and the nets of its rounds.
pub(crate) fn put_brief(alloc: Global, told: &mut Text, left: &Left) -> Result<(), AllocError> {
    put_status(told, left)?;
    for line in left.err.bytes().split(|&byte| byte == b'\n').take(NUMBERS) {
        told.put(b"| ")?;
        told.put(line)?;
        told.put(b"\n")?;
    }
    match &left.ended.book {
        Some(book) => put_rounds(alloc, told, book.state().history()),
        None => Ok(()),
    }
}

/// A line for each round: the nets that were claimed in the first one, and those that were released in
/// each later one, in the order of their numbers.
fn put_rounds(alloc: Global, told: &mut Text, history: &History) -> Result<(), AllocError> {
    let mut nets = Vec::new(alloc);
    let mut round: u64 = 0;
    for place in 0..history.len() {
        match &history.entry(place).call {
            Call::Claim(claim) if round == 0 => nets.push(claim.net)?,
            Call::Claim(_) => {}
            Call::Release { net } => nets.push(*net)?,
            Call::Mark => {
                nets.sort_unstable();
                put_round(told, round, &nets)?;
                nets.clear();
                round = round.saturating_add(1);
            }
        }
    }
    Ok(())
}

fn put_round(told: &mut Text, round: u64, nets: &[u32]) -> Result<(), AllocError> {
    told.put(b"round ")?;
    told.put_number(round)?;
    told.put(b":")?;
    for net in nets {
        told.put(b" ")?;
        told.put_number(*net)?;
    }
    told.put(b"\n")
}

/// The same, and whether the others came to the claims for which a worker waits.
pub(crate) fn put_meeting(
    alloc: Global,
    told: &mut Text,
    left: &Left,
    passed: bool,
) -> Result<(), AllocError> {
    put_brief(alloc, told, left)?;
    put_passed(told, passed)
}

fn put_passed(told: &mut Text, passed: bool) -> Result<(), AllocError> {
    let met: &[u8] = if passed {
        b"the others came to their claims\n"
    } else {
        b"the others didn't come to their claims\n"
    };
    told.put(met)
}

/// How a run ended, and whether the others came to the claims for which a worker waits.
pub(crate) fn put_chase(told: &mut Text, left: &Left, passed: bool) -> Result<(), AllocError> {
    put_status(told, left)?;
    put_passed(told, passed)
}

/// How a run ended, and whether its stops are those of its history.
pub(crate) fn put_stops(told: &mut Text, left: &Left, agrees: bool) -> Result<(), AllocError> {
    put_status(told, left)?;
    let line: &[u8] = if agrees {
        b"the stops are the history's\n"
    } else {
        b"the stops aren't the history's\n"
    };
    told.put(line)
}

/// A line on what a run left, beside what one that was done leaves.
pub(crate) fn put_step(
    told: &mut Text,
    number: usize,
    left: &Left,
    done: &Left,
) -> Result<(), AllocError> {
    told.put_number(number)?;
    told.put(b": status ")?;
    told.put_number(left.ended.status)?;
    put_share(told, b", out", left.out.bytes(), done.out.bytes())?;
    put_share(told, b", err", left.err.bytes(), done.err.bytes())?;
    told.put(b"\n")
}

/// How much of a text a sink gained, or what else.
fn put_share(told: &mut Text, name: &[u8], gained: &[u8], text: &[u8]) -> Result<(), AllocError> {
    told.put(name)?;
    if gained.is_empty() {
        told.put(b" nothing")
    } else if gained == text {
        told.put(b" whole")
    } else if text.starts_with(gained) {
        told.put(b" the first ")?;
        told.put_number(gained.len())
    } else {
        for part in gained.split(|&byte| byte == b'\n') {
            told.put(b" ")?;
            told.put(part)?;
        }
        Ok(())
    }
}

/// A text, line by line, or how long it is.
fn put_text(told: &mut Text, name: &[u8], text: &[u8]) -> Result<(), AllocError> {
    told.put(name)?;
    told.put(b" ")?;
    told.put_number(text.len())?;
    told.put(b"\n")?;
    if text.is_empty() || text.len() > MOST_PRINTED {
        return Ok(());
    }
    for part in text
        .strip_suffix(b"\n")
        .unwrap_or(text)
        .split(|&byte| byte == b'\n')
    {
        told.put(b"| ")?;
        told.put(part)?;
        told.put(b"\n")?;
    }
    Ok(())
}

/// The entries of a book, a line for each, and the length up to its first mark of least overflow.
fn put_book(told: &mut Text, book: &BookState) -> Result<(), AllocError> {
    let history = book.history();
    for place in 0..history.len() {
        let entry = history.entry(place);
        told.put(b"entry ")?;
        told.put_number(entry.number)?;
        put_call(told, &entry.call)?;
        put_reply(told, entry.reply)?;
    }
    if let Some(chosen) = book.least_mark() {
        told.put(b"chosen ")?;
        told.put_number(chosen)?;
        told.put(b"\n")?;
    }
    Ok(())
}

fn put_call(told: &mut Text, call: &Call) -> Result<(), AllocError> {
    match call {
        Call::Claim(claim) => {
            told.put(b" claims ")?;
            told.put_number(claim.net)?;
            told.put(b" from ")?;
            told.put_number(claim.front)
        }
        Call::Release { net } => {
            told.put(b" releases ")?;
            told.put_number(*net)
        }
        Call::Mark => told.put(b" marks"),
    }
}

fn put_reply(told: &mut Text, reply: Reply) -> Result<(), AllocError> {
    match reply {
        Reply::Claimed => told.put(b": claimed")?,
        Reply::Taken => told.put(b": taken")?,
        Reply::Full { edge, demand } => {
            told.put(b": full at ")?;
            told.put_number(edge.low)?;
            told.put(b" with ")?;
            told.put_number(demand)?;
        }
        Reply::Released => told.put(b": released")?,
        Reply::NotBooked => told.put(b": not booked")?,
        Reply::Marked { overflow } => {
            told.put(b": overflow ")?;
            told.put_number(overflow)?;
        }
    }
    told.put(b"\n")
}

fn put_hand(told: &mut Text, log: &HandLog) -> Result<(), AllocError> {
    told.put(b"hand ")?;
    told.put_number(log.number)?;
    told.put(b":")?;
    for place in log.places.as_slice() {
        told.put(b" ")?;
        told.put_number(*place)?;
    }
    told.put(b"\n")
}
