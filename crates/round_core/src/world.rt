//! The pure machine of the rounds.
use crate::steps::Phase;
use book_state::BookState;
use cost_rules::{Formula, Watch};
use gr_base::Design;
use std::alloc::Global;
use std::marker::Model;

/// The rounds of several workers over one book, as a machine that takes one step after another. It
/// allows the steps of the rules and no others, and the steps of the workers may interleave in any way.
#[derive(Drop)]
pub struct World<'a> {
    pub(crate) alloc: Global,
    pub(crate) design: &'a Design,
    pub(crate) formula: Formula,
    pub(crate) rounds: u32,
    pub(crate) watch: Watch,
    pub(crate) goal: u128,
    pub(crate) book: BookState,
    /// The total overflow at the last mark, if there is one.
    pub(crate) overflow: Option<u128>,
    pub(crate) round: u32,
    pub(crate) over: bool,
    /// The nets that no worker has taken in this round.
    pub(crate) left: Vec<u32>,
    /// By worker; none is `Ended`.
    pub(crate) phases: Vec<Phase>,
    /// By worker, the length of the history just after its last entry, or 0.
    pub(crate) since: Vec<u64>,
}

impl<'a> Model for World<'a> {
    ghost use Rattle.round_core.specs.Worlds.{WorldView};

    ghost Value = { WorldView };

    ghost use Rattle.round_core.specs.WorldStore.{seen, Keeps};

    ghost view = { seen };

    ghost invariant = { Keeps };
}
