//! What is asked for.
ghost use Rattle.std.specs.Prelude.{◌≤◌};
ghost use Rattle.gr_base.specs.Limits.{most_rounds, most_workers};
ghost use Rattle.run_histories.specs.GivenRoutes.{AreGivenRoutes};

use cost_rules::{CostRule, Watcher};
use gr_base::{Design, Routes};

/// Rounds that are asked for: from these given trees, by so many workers, and after round 0 at most so many
/// more, which the watcher may end earlier by the goal.
#[derive(Clone, Copy)]
pub(crate) struct Asked<'a> {
    pub(crate) design: &'a Design,
    pub(crate) given: &'a Routes,
    pub(crate) rule: &'a CostRule,
    pub(crate) workers: u32,
    pub(crate) rounds: u32,
    pub(crate) watcher: &'a Watcher,
    pub(crate) goal: u128,
    ghost fits: { AreGivenRoutes design.now given.now },
    ghost some: { 1 ≤ workers },
    ghost few: { workers ≤ most_workers },
    ghost most: { rounds ≤ most_rounds },
}

/// What of it a worker has to know. The closures of threads hold no more, so that it is easily seen that
/// they may share it.
#[derive(Clone, Copy)]
pub(crate) struct Task<'a> {
    pub(crate) design: &'a Design,
    pub(crate) rule: &'a CostRule,
    pub(crate) workers: u32,
    pub(crate) rounds: u32,
    ghost some: { 1 ≤ workers },
    ghost few: { workers ≤ most_workers },
    ghost most: { rounds ≤ most_rounds },
}
