//! The plain values that watchers work with: what they see, what they may answer, and the three watches.

/// What a watcher sees at the end of a round.
#[derive(Clone, Copy, Debug, PartialEq, Eq)]
pub struct Sight {
    /// The total overflow now.
    pub overflow: u128,
    /// The total overflow at the end of the round before, if there was one.
    pub before: Option<u128>,
    /// The overflow that is good enough.
    pub goal: u128,
}

/// Whether another round is to begin.
#[derive(Clone, Copy, Debug, PartialEq, Eq)]
pub enum Going {
    On,
    Stop,
}

/// When the rounds are to stop early.
#[derive(Clone, Copy, Debug, PartialEq, Eq)]
pub enum Watch {
    /// At no sight.
    Never,
    /// Where a round has not made the overflow smaller.
    Still,
    /// Where the overflow is at most the goal.
    Goal,
}
