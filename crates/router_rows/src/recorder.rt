//! A gate that keeps what it is told.
use book_state::{Call, Entry, History, Reply};
use ripup_workers::{Gate, Stop};
use std::alloc::Global;
use std::sync::{Mutex, Wait};
use std::thread::Threads;

/// What was told, and by whom.
#[derive(Clone, Copy, Debug)]
struct Told {
    number: u32,
    stop: Stop,
}

/// Keeps each stop.
#[derive(Drop)]
pub(crate) struct RecordingGate {
    told: Mutex<Vec<Told>>,
}

impl RecordingGate {
    pub(crate) fn new(alloc: Global) -> RecordingGate {
        RecordingGate {
            told: Mutex::new(Vec::new(alloc)),
        }
    }

    /// Whether what was told is what this history holds: of each caller the nets of its claims and the
    /// overflow at its marks, and behind each search the claim of the net that is searched for.
    pub(crate) fn agrees(self, history: &History, callers: u32) -> bool {
        let told = self.told.into_inner();
        (0..callers).all(|number| agrees_with(&told, history, number) && searches(&told, number))
    }
}

impl Gate for RecordingGate {
    fn pass<R: Threads + Wait + Sync>(&self, rt: &R, number: u32, stop: Stop) {
        // A stop that there is no memory for is missed by `agrees`.
        let _kept = self.told.lock(rt).push(Told { number, stop });
    }
}

/// Whether the claims and marks that were told of a caller are those of its entries.
fn agrees_with(told: &[Told], history: &History, number: u32) -> bool {
    let mut place = 0;
    for one in told.iter().filter(|one| one.number == number) {
        if matches!(one.stop, Stop::Turn { .. } | Stop::Search { .. }) {
            continue;
        }
        let at = next_of(history, number, place);
        if at >= history.len() || !is_entry(history.entry(at), one.stop) {
            return false;
        }
        place = at.saturating_add(1);
    }
    next_of(history, number, place) >= history.len()
}

/// The place of a caller's next claim or mark, from a place on; behind the last, where there is none.
fn next_of(history: &History, number: u32, from: u64) -> u64 {
    for place in from..history.len() {
        let entry = history.entry(place);
        if entry.number == number && !matches!(entry.call, Call::Release { .. }) {
            return place;
        }
    }
    u64::MAX
}

/// Whether an entry is the claim or the mark that was told.
fn is_entry(entry: &Entry, stop: Stop) -> bool {
    match (&entry.call, entry.reply, stop) {
        (Call::Claim(claim), _, Stop::Claim { net }) => claim.net == net,
        (Call::Mark, Reply::Marked { overflow }, Stop::Marked { overflow: told, .. }) => {
            overflow == told
        }
        _ => false,
    }
}

/// Whether each turn and each search of a caller is for the net that it claims next.
fn searches(told: &[Told], number: u32) -> bool {
    let mut wanted = None;
    for one in told.iter().filter(|one| one.number == number) {
        match one.stop {
            Stop::Turn { net, .. } => wanted = Some(net),
            Stop::Search { net } | Stop::Claim { net } if wanted != Some(net) => return false,
            _ => {}
        }
    }
    true
}
