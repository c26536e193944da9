//! A gate that keeps a worker behind the others.
use ripup_workers::{Gate, Stop};
use std::sync::{Mutex, Wait};
use std::thread;
use std::thread::Threads;

/// For how many turns a worker waits at most.
const MOST_TURNS: u32 = 5_000_000;

/// What the gate has seen.
#[derive(Clone, Copy, Drop)]
struct Seen {
    /// Whether round 0 is over.
    later: bool,
    /// The worker that is chased: the first that comes to a search behind round 0.
    chased: Option<u32>,
    /// Whether one of the others may go on.
    free: bool,
    /// The one that goes on.
    runner: Option<u32>,
    /// How often the chased one waited.
    times: u64,
    /// How many claims the others have come to.
    claims: u64,
    /// Whether it waited in vain.
    missed: bool,
    /// Whether nobody waits any more.
    over: bool,
}

/// Behind round 0 one worker waits at each of its first searches until another comes to one more claim. Each
/// time that it waits one of the others goes on up to its claim: so each of its plans is overtaken.
#[derive(Drop)]
pub(crate) struct ChasingGate {
    times: u64,
    seen: Mutex<Seen>,
}

impl ChasingGate {
    /// Chases a worker at so many searches.
    pub(crate) fn new(times: u64) -> ChasingGate {
        ChasingGate {
            times,
            seen: Mutex::new(Seen {
                later: false,
                chased: None,
                free: false,
                runner: None,
                times: 0,
                claims: 0,
                missed: false,
                over: false,
            }),
        }
    }

    /// Whether a worker waited so often, never in vain, once all workers are gone.
    pub(crate) fn is_passed(self) -> bool {
        let times = self.times;
        let seen = self.seen.into_inner();
        seen.times == times && !seen.missed
    }

    /// The claims that the others have come to, where this worker is the one that is to wait here.
    fn begin_wait<R: Wait>(&self, rt: &R, worker: u32) -> Option<u64> {
        let mut seen = self.seen.lock(rt);
        if !seen.later || seen.over {
            return None;
        }
        if seen.chased.is_none() {
            seen.chased = Some(worker);
        }
        if seen.chased != Some(worker) {
            return None;
        }
        seen.times = seen.times.saturating_add(1);
        seen.free = true;
        Some(seen.claims)
    }

    /// Waits until another comes to one more claim than these.
    fn wait_for_claim<R: Wait>(&self, rt: &R, claims: u64) {
        for _ in 0..MOST_TURNS {
            if self.is_overtaken(rt, claims) {
                return;
            }
            thread::yield_now();
        }
        self.give_up(rt);
    }

    /// Whether the others have come to more claims than these.
    fn is_overtaken<R: Wait>(&self, rt: &R, claims: u64) -> bool {
        let mut seen = self.seen.lock(rt);
        let met = seen.claims > claims;
        seen.over = seen.over || (met && seen.times >= self.times);
        met
    }

    /// Ends the chase, for the chased worker waited in vain.
    fn give_up<R: Wait>(&self, rt: &R) {
        let mut seen = self.seen.lock(rt);
        seen.missed = true;
        seen.over = true;
    }

    /// Waits until it may go on with a search.
    fn wait_for_chased<R: Wait>(&self, rt: &R, worker: u32) {
        for _ in 0..MOST_TURNS {
            if self.takes_turn(rt, worker) {
                return;
            }
            thread::yield_now();
        }
    }

    /// Whether one of the others goes on with its search.
    fn takes_turn<R: Wait>(&self, rt: &R, worker: u32) -> bool {
        let mut seen = self.seen.lock(rt);
        if seen.free {
            seen.free = false;
            seen.runner = Some(worker);
        }
        !seen.later || seen.over || seen.runner == Some(worker)
    }

    /// Counts a claim of another worker than the chased one.
    fn count<R: Wait>(&self, rt: &R, worker: u32) {
        let mut seen = self.seen.lock(rt);
        if seen.chased.is_some() && seen.chased != Some(worker) {
            seen.claims = seen.claims.saturating_add(1);
            seen.runner = None;
        }
    }
}

impl Gate for ChasingGate {
    fn pass<R: Threads + Wait + Sync>(&self, rt: &R, worker: u32, stop: Stop) {
        match stop {
            Stop::Turn { .. } => {}
            Stop::Marked { .. } => self.seen.lock(rt).later = true,
            Stop::Claim { .. } => self.count(rt, worker),
            Stop::Search { .. } => match self.begin_wait(rt, worker) {
                Some(claims) => self.wait_for_claim(rt, claims),
                None => self.wait_for_chased(rt, worker),
            },
        }
    }
}
