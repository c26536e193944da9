//! The rounds in batches.
ghost use Rattle.std.specs.Prelude.{◌≤◌, IfOk};
ghost use Rattle.gr_base.specs.Limits.{most_rounds, most_workers};
ghost use Rattle.run_histories.specs.GivenRoutes.{AreGivenRoutes};
ghost use Rattle.batch_rounds.specs.BatchedHistories.{batches_of};
ghost use Rattle.batch_rounds.specs.Made.{IsMade};

use crate::asked::Asked;
use crate::given::claim_given;
use crate::means::Means;
use crate::run::run_rounds;
use crate::seats::Seats;
use book_state::BookState;
use cost_rules::CostRule;
use gr_base::{Design, Routes};
use run_histories::Gate;
use std::alloc::{AllocError, Global};
use std::sync::Wait;
use std::thread::Threads;

/// What rounds in batches give.
#[derive(Debug, Drop)]
pub struct Batched {
    /// The marks are those of number 0, the releases and claims those of number 1.
    pub state: BookState,
    /// How many entries the history has up to and with its first mark of least overflow.
    pub chosen: u64,
}

/// Routes the nets of a design in batches of `batch` nets (at least 1): first each net to which a tree is
/// given by that, then each other routed net by its pattern plan, and then, in up to `rounds` rounds (at
/// most 64), each net on an edge over its capacity anew. The nets of a batch are planned over one state of the demand, by up to `workers` threads (1 to
/// 16), and then claimed in the design's order; one that finds no room is planned again alone. Each round
/// ends with a mark, and the rounds end once no net lies on an edge over its capacity. What comes out
/// doesn't depend on the number of threads. The only error is want of memory.
///
/// A given tree is of a routed net: it has the design's shape, starts at the driver's cell, holds each
/// pin's cell, and its wires go in usable directions.
///
/// After the batches of SPRoute 2.0, He, Pingali and others, "SPRoute 2.0: A detailed-routability-driven
/// deterministic parallel global router with soft capacity", 2022.
pub fn batch_rounds<R: Threads + Wait + Sync, G: Gate + Sync>(
    rt: &R,
    alloc: Global,
    design: &Design,
    given: &Routes,
    rule: &CostRule,
    workers: u32,
    rounds: u32,
    batch: u32,
    gate: &G,
) -> Result<Batched, AllocError>
    requires given { AreGivenRoutes design.now given.now }
    requires some { 1 ≤ workers }
    requires few { workers ≤ most_workers }
    requires rounds { rounds ≤ most_rounds }
    requires batch { 1 ≤ batch }
    ensures { IfOk result (IsMade (batches_of design.now given.now rule.now.formula rounds batch)) }
{
    let asked = Asked {
        design,
        given,
        rule,
        rounds,
        batch,
    };
    let means = Means {
        rt,
        threads: workers,
        alloc,
        gate,
    };
    let mut seats = Seats::new(alloc, workers)?;
    let mut state = BookState::new(alloc, design)?;
    claim_given(alloc, &asked, &mut state)?;
    run_rounds(&means, &asked, &mut state, &mut seats)?;
    let chosen = state.least_mark().unwrap();
    Ok(Batched { state, chosen })
}
