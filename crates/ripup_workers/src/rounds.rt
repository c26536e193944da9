//! The rounds.
ghost use Rattle.std.specs.Prelude.{◌≤◌, IfOk};
ghost use Rattle.gr_base.specs.Limits.{most_rounds, most_workers};
ghost use Rattle.run_histories.specs.GivenRoutes.{AreGivenRoutes};
ghost use Rattle.run_histories.specs.RunHistories.{asked_for};
ghost use Rattle.ripup_workers.specs.Made.{IsMade};

use crate::asked::Asked;
use crate::run::book_of_rounds;
use cost_rules::{CostRule, Watcher};
use gr_base::{Design, Routes};
use run_histories::{Gate, HandLog, hands_of};
use std::alloc::{AllocError, Global};
use std::marker::Brand;
use std::sync::Wait;
use std::thread::Threads;
use track_book::{Blank, ClosedBook};

/// What the rounds of a design give.
#[derive(Debug, Drop)]
pub struct Rounds {
    pub book: ClosedBook,
    /// The marks are those of number 0, the claims and releases those of the workers, from 1.
    pub hands: Vec<HandLog>,
    /// How many entries the history has up to and with its first mark of least overflow.
    pub chosen: u64,
}

/// Routes the nets of a design by from 1 to 16 workers, which book them side by side: first each net to
/// which a tree is given by that, then each other routed net by its pattern plan, and then, in up to
/// `rounds` rounds (at most 64), each net on an edge over its capacity anew. Each round ends with a mark.
/// The rounds end once no net lies on such an edge, or once the watcher says Stop at a mark. The only
/// error is want of memory.
///
/// A given tree is of a routed net: it has the design's shape, starts at the driver's cell, holds each
/// pin's cell, and its wires go in usable directions.
pub fn route_rounds<R: Threads + Wait + Sync, G: Gate + Sync>(
    rt: &R,
    alloc: Global,
    design: &Design,
    given: &Routes,
    rule: &CostRule,
    workers: u32,
    rounds: u32,
    watcher: &Watcher,
    goal: u128,
    gate: &G,
) -> Result<Rounds, AllocError>
    requires given { AreGivenRoutes design.now given.now }
    requires some { 1 ≤ workers }
    requires few { workers ≤ most_workers }
    requires rounds { rounds ≤ most_rounds }
    ensures { IfOk result
        (IsMade (asked_for design.now given.now rule.now.formula workers rounds watcher.now.watch goal)) }
{
    let asked = Asked {
        design,
        given,
        rule,
        workers,
        rounds,
        watcher,
        goal,
    };
    let blank = Blank::new(alloc, design, workers + 1)?;
    let book = book_of_rounds::<Brand, R, G>(rt, alloc, &asked, gate, blank)?;
    let hands = hands_of(alloc, book.state().history(), workers + 1)?;
    let chosen = book.state().least_mark().unwrap();
    Ok(Rounds {
        book,
        hands,
        chosen,
    })
}
