//! Pairs as lists store them, in 32 bytes.
ghost use Rattle.std.specs.Prelude.{◌≡◌, ◌<◌, ◌≤◌, ◌^◌, ◌*◌, ◌+◌, length, not, Some, IfSome, slice_index_or};
ghost use Rattle.rc_library.specs.Libraries.{IsWire, IsKind};
ghost use Rattle.elmore_delay.specs.RcTrees.{buffer_delay, edge_delay, sooner};
ghost use Rattle.elmore_delay.specs.FromLeaves.{less, behind, along, joined};
ghost use Rattle.ginneken_lists.specs.Candidates.{no_later, serves, driven_time};
ghost use Rattle.ginneken_lists.specs.Pairs.{seen_of, IsTime, IsInRange};
ghost use Rattle.ginneken_lists.specs.StoredPairs.{time_of, pair_of};

use crate::pair::Pair;
use crate::steps::Steps;
use rc_library::{Kind, Wire};
use std::sync::ledger::Ledger;

/// A time in half femtoseconds, or none, which is stored as the greatest number.
#[derive(Clone, Copy, Debug)]
pub(crate) struct Time {
    at: i128,
}

impl Time {
    fn new(time: Option<i128>) -> Time
        requires { IfSome time IsTime }
        ensures { time_of result ≡ time }
    {
        match time {
            None => Time { at: i128::MAX },
            Some(at) => Time { at },
        }
    }

    fn get(self) -> Option<i128>
        ensures { result ≡ time_of self }
    {
        if self.at == i128::MAX {
            None
        } else {
            Some(self.at)
        }
    }

    /// Whether it is later than another time.
    pub(crate) fn is_later(self, other: Time) -> bool
        ensures { result ≡ not (no_later (time_of self) (time_of other)) }
    {
        self.at > other.at
    }

    fn sooner(self, other: Time) -> Time
        ensures { time_of result ≡ sooner (time_of self) (time_of other) }
    {
        Time {
            at: self.at.min(other.at),
        }
    }

    /// The time less a delay.
    pub(crate) fn less(self, delay: u128) -> Time
        requires time { IfSome (time_of self) IsTime }
        requires delay { delay ≤ 2 ^ 100 }
        ensures { time_of result ≡ less delay (time_of self) }
    {
        if self.at == i128::MAX {
            return self;
        }
        Time {
            at: self.at - delay as i128,
        }
    }
}

/// A pair of a list.
#[derive(Clone, Copy, Debug)]
pub(crate) struct Stored {
    pub(crate) time: Time,
    pub(crate) load: u64,
    pub(crate) mark: u64,
}

impl Stored {
    pub(crate) fn new(load: u64, time: Option<i128>, mark: u64) -> Stored
        requires { IfSome time IsTime }
        ensures { pair_of result ≡ record { load = load; time = time; mark = mark } }
    {
        Stored {
            time: Time::new(time),
            load,
            mark,
        }
    }

    pub(crate) fn pair(self) -> Pair
        ensures { result ≡ pair_of self }
    {
        Pair {
            load: self.load,
            time: self.time.get(),
            mark: self.mark,
        }
    }

    /// The same with another mark.
    pub(crate) fn marked(self, mark: u64) -> Stored
        ensures { result ≡ record { time = self.time; load = self.load; mark = mark } }
    {
        Stored { mark, ..self }
    }

    /// Whether it serves as well as another pair.
    pub(crate) fn serves(self, other: Stored) -> bool
        ensures { result ≡ serves (seen_of (pair_of self)) (seen_of (pair_of other)) }
    {
        self.load <= other.load && !other.time.is_later(self.time)
    }

    /// The time at the input of a buffer or a driver of a resistance that drives it.
    pub(crate) fn driven_time(self, r: u32) -> Time
        requires { IsInRange (pair_of self) }
        ensures { time_of result ≡ driven_time r (seen_of (pair_of self)) }
    {
        self.time.less(driving_delay(r, self.load))
    }

    /// What is seen behind a buffer of a kind, with the mark of what the buffer drives.
    pub(crate) fn behind(self, kind: Kind) -> Stored
        requires range { IsInRange (pair_of self) }
        requires kind { IsKind kind }
        ensures seen { seen_of (pair_of result) ≡ behind (Some kind) (seen_of (pair_of self)) }
        ensures mark { result.mark ≡ self.mark }
    {
        Stored {
            time: self.time.less(buffer_delay(kind, self.load)),
            load: u64::from(kind.c),
            mark: self.mark,
        }
    }

    /// What is seen at the upper end of an edge.
    pub(crate) fn along(self, wire: Wire) -> Stored
        requires range { IsInRange (pair_of self) }
        requires wire { IsWire wire }
        ensures seen { seen_of (pair_of result) ≡ along wire (seen_of (pair_of self)) }
        ensures mark { result.mark ≡ self.mark }
    {
        Stored {
            time: self.time.less(edge_delay(wire, self.load)),
            load: self.load + u64::from(wire.c),
            mark: self.mark,
        }
    }

    /// What is seen where two branches meet, with a mark of its own.
    pub(crate) fn joined(self, other: Stored, mark: u64) -> Stored
        requires load { self.load ≤ 2 ^ 60 }
        requires other { other.load ≤ 2 ^ 60 }
        ensures seen { seen_of (pair_of result) ≡ joined (seen_of (pair_of self)) (seen_of (pair_of other)) }
        ensures mark { result.mark ≡ mark }
    {
        Stored {
            time: self.time.sooner(other.time),
            load: self.load + other.load,
            mark,
        }
    }
}

/// What a buffer or a driver of a resistance that drives a load adds to the delay, in half
/// femtoseconds.
pub(crate) fn driving_delay(r: u32, load: u64) -> u128
    requires { load ≤ 2 ^ 60 }
    ensures delay { result ≡ 2 * r * load }
    ensures most { result ≤ 2 ^ 93 }
{
    2 * u128::from(r) * u128::from(load)
}

/// What a buffer that drives a load adds to the delay, its own included.
fn buffer_delay(kind: Kind, load: u64) -> u128
    requires kind { IsKind kind }
    requires load { load ≤ 2 ^ 60 }
    ensures delay { result ≡ buffer_delay (Some kind) load }
    ensures most { result ≤ 2 ^ 100 }
{
    2 * u128::from(kind.delay.unsigned_abs()) + driving_delay(kind.r, load)
}

/// What an edge that drives a load at its lower end adds to the delay.
fn edge_delay(wire: Wire, load: u64) -> u128
    requires wire { IsWire wire }
    requires load { load ≤ 2 ^ 60 }
    ensures delay { result ≡ edge_delay wire load }
    ensures most { result ≤ 2 ^ 100 }
{
    u128::from(wire.r) * (u128::from(wire.c) + 2 * u128::from(load))
}

/// Reads a pair, which is one step.
pub(crate) fn read<L: Ledger>(pairs: &[Stored], at: usize, steps: &mut Steps<L>) -> Stored
    requires { at < length pairs.now }
    ensures pair { result ≡ slice_index_or pairs.now at result }
    ensures steps { steps.new ≡ steps.old + 1 }
{
    steps.tick();
    pairs[at]
}
