//! A gate that lets a worker wait for another.
use ripup_workers::{Gate, Stop};
use std::sync::{Mutex, Wait};
use std::thread;
use std::thread::Threads;

/// For how many turns a worker waits at most.
const MOST_TURNS: u32 = 5_000_000;

/// Who is held.
#[derive(Clone, Copy)]
pub(crate) enum Whom {
    /// The worker of this number, at its first search.
    Worker(u64),
    /// Whoever comes to this search of all, from 0.
    Search(u64),
}

/// What a gate has seen.
#[derive(Clone, Copy, Drop)]
struct Seen {
    /// The worker that is held, or was.
    held: Option<u64>,
    searches: u64,
    /// How many claims the others have come to.
    claims: u64,
    /// Whether these became enough while it waited.
    met: bool,
}

/// Holds a worker at a search until the others have come to so many claims, which it counts.
#[derive(Drop)]
pub(crate) struct HoldingGate {
    whom: Whom,
    claims: u64,
    seen: Mutex<Seen>,
}

impl HoldingGate {
    pub(crate) fn new(whom: Whom, claims: u64) -> HoldingGate {
        HoldingGate {
            whom,
            claims,
            seen: Mutex::new(Seen {
                held: None,
                searches: 0,
                claims: 0,
                met: false,
            }),
        }
    }

    /// Whether the others came to enough claims, and no worker waited for them in vain, once all
    /// workers are gone. The worker of a number may have had nothing to do; a search is always held.
    pub(crate) fn is_passed(self) -> bool {
        let claims = self.claims;
        let whom = self.whom;
        let seen = self.seen.into_inner();
        match whom {
            Whom::Worker(_) if seen.held.is_none() => seen.claims >= claims,
            _ => seen.met,
        }
    }

    /// Counts a claim of another worker than the one that is held.
    fn count<R: Wait>(&self, rt: &R, worker: u64) {
        let mut seen = self.seen.lock(rt);
        let is_others = match self.whom {
            Whom::Worker(number) => number != worker,
            Whom::Search(_) => seen.held.is_some() && seen.held != Some(worker),
        };
        if is_others {
            seen.claims = seen.claims.saturating_add(1);
        }
    }

    /// Whether the worker is to be held at this search.
    fn holds<R: Wait>(&self, rt: &R, worker: u64) -> bool {
        let mut seen = self.seen.lock(rt);
        let wanted = match self.whom {
            Whom::Worker(number) => number == worker,
            Whom::Search(number) => number == seen.searches,
        };
        seen.searches = seen.searches.saturating_add(1);
        if !wanted || seen.held.is_some() {
            return false;
        }
        seen.held = Some(worker);
        true
    }

    /// Whether the others have come to enough claims.
    fn is_met<R: Wait>(&self, rt: &R) -> bool {
        let mut seen = self.seen.lock(rt);
        seen.met = seen.claims >= self.claims;
        seen.met
    }
}

impl Gate for HoldingGate {
    fn pass<R: Threads + Wait + Sync>(&self, rt: &R, worker: u32, stop: Stop) {
        match stop {
            Stop::Turn { .. } | Stop::Marked { .. } => {}
            Stop::Claim { .. } => self.count(rt, u64::from(worker)),
            Stop::Search { .. } => {
                if !self.holds(rt, u64::from(worker)) {
                    return;
                }
                for _ in 0..MOST_TURNS {
                    if self.is_met(rt) {
                        return;
                    }
                    thread::yield_now();
                }
            }
        }
    }
}
