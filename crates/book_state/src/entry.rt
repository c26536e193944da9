//! The entries of a history.
ghost use Rattle.std.specs.Prelude.{◌≡◌};
ghost use Rattle.book_state.specs.Entries.{is_full_reply};

use gr_base::{Edge, RouteTree};

/// How the tree of a claim came about: by patterns, or by a maze search in the window of the net's pins,
/// widened by a margin in tiles; or it was given before the rounds began.
#[derive(Clone, Copy, Debug, PartialEq, Eq)]
pub enum PlanKind {
    Pattern,
    Maze { margin: u32 },
    Given,
}

/// A call that asks for the tracks of a tree for a net.
#[derive(Debug, Drop)]
pub struct Claim {
    pub net: u32,
    pub tree: RouteTree,
    /// By how much demand may exceed capacity on the tree's edges, in units of width. None sets no
    /// bound.
    pub slack: Option<u32>,
    /// The length of the history from which the tree was planned.
    pub front: u64,
    pub kind: PlanKind,
}

/// A call to the book.
#[derive(Debug, Drop)]
pub enum Call {
    Claim(Claim),
    Release { net: u32 },
    Mark,
}

/// The reply to a call. `Full` names an edge without room and its demand; `Marked` carries the total
/// overflow.
#[derive(Clone, Copy, Debug, PartialEq, Eq)]
pub enum Reply {
    Claimed,
    Taken,
    Full { edge: Edge, demand: u64 },
    Released,
    NotBooked,
    Marked { overflow: u128 },
}

impl Reply {
    /// Whether it says that a claim found no room.
    pub fn is_full(self) -> bool
        ensures { result ≡ is_full_reply self }
    {
        matches!(self, Reply::Full { .. })
    }
}

/// A call by the caller of this number, and the reply to it.
#[derive(Debug, Drop)]
pub struct Entry {
    pub number: u32,
    pub call: Call,
    pub reply: Reply,
}
