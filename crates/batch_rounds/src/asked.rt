//! What is asked for.
ghost use Rattle.std.specs.Prelude.{◌≤◌, length};
ghost use Rattle.gr_base.specs.Designs.{AreRouted};
ghost use Rattle.gr_base.specs.Limits.{most_nets, most_rounds};
ghost use Rattle.run_histories.specs.GivenRoutes.{AreGivenRoutes};

use cost_rules::CostRule;
use gr_base::{Design, Routes};

/// Rounds that are asked for: from these given trees, at most so many after round 0, and in batches of so
/// many nets.
#[derive(Clone, Copy)]
pub(crate) struct Asked<'a> {
    pub(crate) design: &'a Design,
    pub(crate) given: &'a Routes,
    pub(crate) rule: &'a CostRule,
    pub(crate) rounds: u32,
    pub(crate) batch: u32,
    ghost fits: { AreGivenRoutes design.now given.now },
    ghost most: { rounds ≤ most_rounds },
    ghost one: { 1 ≤ batch },
}

/// Nets that are due in a round: all of them, or those of one batch.
#[derive(Clone, Copy)]
pub(crate) struct Due<'a> {
    pub(crate) asked: &'a Asked<'a>,
    pub(crate) round: u32,
    pub(crate) nets: &'a [u32],
    ghost reached: { round ≤ asked.now.rounds },
    ghost routed: { AreRouted asked.now.design.now nets.now },
    ghost count: { length nets.now ≤ most_nets },
}
