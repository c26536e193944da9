//! What is seen at the points of a tree, from the leaves to the driver.
ghost use Rattle.std.specs.Prelude.{◌≡◌, ◌+◌, ◌*◌, ◌^◌, ◌<◌, ◌≤◌, Some, IfSome};
ghost use Rattle.rc_library.specs.Libraries.{IsWire, IsKind};
ghost use Rattle.rc_library.specs.Limits.{most_resistance};
ghost use Rattle.elmore_delay.specs.RcTrees.{buffer_delay, edge_delay, sooner};
ghost use Rattle.elmore_delay.specs.FromLeaves.{less, behind, along, joined, at_driver};
ghost use Rattle.elmore_delay.specs.Ranges.{most_load, most_step_delay, IsTime, IsSeen};

use rc_library::{Kind, Wire};

/// What is seen at a point of a tree: the load there in femtofarads, and the least over the sinks
/// below of twice the time less the delay from the point, in half femtoseconds. Without a sink below
/// there is no time, which counts as greater than all.
#[derive(Clone, Copy, Debug)]
pub struct Seen {
    pub load: u64,
    pub time: Option<i128>,
}

impl Seen {
    /// What is seen of sinks alone: the sum of their loads, and the least of twice their times.
    pub(crate) fn of_sinks(load: u64, time: Option<i64>) -> Seen
        ensures { result ≡ record { load = load; time = time } }
    {
        Seen {
            load,
            time: match time {
                None => None,
                Some(at) => Some(i128::from(at)),
            },
        }
    }

    /// What the parent of the node below which this is seen sees of it: through the node's buffer, if
    /// it has one, and the edge into the node.
    pub(crate) fn hanging(self, wire: Wire, kind: Option<Kind>) -> Seen
        requires seen { IsSeen (2 ^ 100) self }
        requires wire { IsWire wire }
        requires kind { IfSome kind IsKind }
        ensures seen { result ≡ along wire (behind kind self) }
        ensures load { result.load ≤ 2 * most_load }
    {
        self.behind(kind).along(wire)
    }

    fn behind(self, kind: Option<Kind>) -> Seen
        requires seen { IsSeen (2 ^ 100) self }
        requires kind { IfSome kind IsKind }
        ensures seen { result ≡ behind kind self }
        ensures range { IsSeen (2 ^ 101) result }
    {
        let Some(kind) = kind else {
            return self;
        };
        Seen {
            load: u64::from(kind.c),
            time: less(self.time, buffer_delay(kind, self.load)),
        }
    }

    fn along(self, wire: Wire) -> Seen
        requires seen { IsSeen (2 ^ 101) self }
        requires wire { IsWire wire }
        ensures seen { result ≡ along wire self }
        ensures load { result.load ≤ 2 * most_load }
    {
        Seen {
            load: self.load + u64::from(wire.c),
            time: less(self.time, edge_delay(wire, self.load)),
        }
    }

    /// What is seen where two branches meet.
    pub(crate) fn joined(self, other: Seen) -> Seen
        requires load { self.load ≤ most_load }
        requires other { other.load ≤ 2 * most_load }
        ensures { result ≡ joined self other }
    {
        Seen {
            load: self.load + other.load,
            time: sooner(self.time, other.time),
        }
    }

    /// The time at the input of a driver of a resistance that drives what is seen; 0 without a sink.
    pub(crate) fn at_driver(self, r: u32) -> i128
        requires seen { IsSeen (2 ^ 100) self }
        requires driver { r ≤ most_resistance }
        ensures { result ≡ at_driver r self }
    {
        let delay = 2 * u128::from(r) * u128::from(self.load);
        less(self.time, delay).unwrap_or(0)
    }
}

/// What a buffer that drives a load adds to the delay, in half femtoseconds.
pub(crate) fn buffer_delay(kind: Kind, load: u64) -> u128
    requires kind { IsKind kind }
    requires load { load ≤ most_load }
    ensures delay { result ≡ buffer_delay (Some kind) load }
    ensures most { result ≤ most_step_delay }
{
    2 * u128::from(kind.delay.unsigned_abs()) + 2 * u128::from(kind.r) * u128::from(load)
}

/// What an edge that drives a load at its lower end adds to the delay, in half femtoseconds.
pub(crate) fn edge_delay(wire: Wire, load: u64) -> u128
    requires wire { IsWire wire }
    requires load { load ≤ most_load }
    ensures delay { result ≡ edge_delay wire load }
    ensures most { result ≤ most_step_delay }
{
    u128::from(wire.r) * (u128::from(wire.c) + 2 * u128::from(load))
}

/// A time less a delay.
fn less(time: Option<i128>, delay: u128) -> Option<i128>
    requires time { IfSome time (IsTime (2 ^ 101)) }
    requires delay { delay ≤ most_step_delay }
    ensures time { result ≡ less delay time }
{
    match time {
        None => None,
        Some(at) => Some(at - delay as i128),
    }
}

/// The lesser of two times, where none is greater than all.
fn sooner(first: Option<i128>, second: Option<i128>) -> Option<i128>
    ensures { result ≡ sooner first second }
{
    match (first, second) {
        (None, _) => second,
        (_, None) => first,
        (Some(first), Some(second)) => Some(first.min(second)),
    }
}
