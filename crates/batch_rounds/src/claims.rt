//! The claims of nets.
ghost use Rattle.std.specs.Prelude.{◌≡◌, ◌<◌, ◌≤◌, ℕ, List, All, length, IfOk, OnOk, IsTrue};
ghost use Rattle.book_state.specs.Books.{reply_to, IsClaim};
ghost use Rattle.book_state.specs.declared.entry.Entry.{Entry};
ghost use Rattle.gr_base.specs.Designs.{is_routed};
ghost use Rattle.grid_demand.specs.Tables.{capacity_of};
ghost use Rattle.run_histories.specs.Attempts.{kind_of};
ghost use Rattle.run_histories.specs.Rounds.{IsPlanFor};
ghost use Rattle.batch_rounds.specs.BatchedHistories.{claimant, after_call, first_slack, IsClaimedAlone, IsTurn};
ghost use Rattle.batch_rounds.specs.SecondTries.{IsRefused, WasNoted};
ghost use Rattle.batch_rounds.specs.Rounds.{batching_of};

use crate::again::plan_again;
use crate::asked::Asked;
use crate::seat::Planned;
use book_state::{BookState, Call, Claim, Reply};
use net_plan::Planner;
use run_histories::kind_of;
use std::alloc::{AllocError, Global};

/// The number under which releases and claims stand in a history.
pub(crate) const CLAIMANT: u32 = 1;

/// The slack of a net's first claim in a round.
fn first_slack(round: u32) -> Option<u32>
    ensures { result ≡ first_slack round }
{
    if round == 0 { None } else { Some(0) }
}

/// Claims a net for its plan from a batch, which was made after the first `front` entries, and where that
/// finds no room, alone. The only error is want of memory.
pub(crate) fn claim_net(
    alloc: Global,
    asked: &Asked,
    round: u32,
    net: u32,
    planned: Planned,
    front: u64,
    book: &mut BookState,
    planner: &mut Planner,
) -> Result<(), AllocError>
    requires capacity { book.old.capacity ≡ capacity_of asked.now.design.now }
    requires round { round ≤ asked.now.rounds }
    requires net { IsTrue (is_routed asked.now.design.now net) }
    requires front { front ≤ length book.old.history }
    requires shape { planned.tree.shape ≡ asked.now.design.now.frame.shape }
    requires planned { WasNoted asked.now.design.now asked.now.rule.now.formula round book.old.history net planned }
    ensures capacity { OnOk result (book.new.capacity ≡ capacity_of asked.now.design.now) }
    ensures turn { (h : List Entry) → front ≡ length h →
        IsPlanFor asked.now.design.now asked.now.rule.now.formula h net (kind_of round) planned.tree →
        OnOk result (IsTurn (batching_of asked.now) round h net book.old.history book.new.history) }
{
    let claim = Claim {
        net,
        tree: planned.tree,
        slack: first_slack(round),
        front,
        kind: kind_of(round),
    };
    if add_claim(book, claim)?.is_full() {
        claim_alone(alloc, asked, round, net, planned.demand, book, planner)?;
    }
    Ok(())
}

/// Claims a net, whose first claim was refused, for its plan over the history so far, with room within
/// capacity; and where there is none, for the same tree at any demand. The refused plan was made over this
/// demand from its cells.
fn claim_alone(
    alloc: Global,
    asked: &Asked,
    round: u32,
    net: u32,
    demand: u128,
    book: &mut BookState,
    planner: &mut Planner,
) -> Result<(), AllocError>
    requires capacity { book.old.capacity ≡ capacity_of asked.now.design.now }
    requires round { round ≤ asked.now.rounds }
    requires net { IsTrue (is_routed asked.now.design.now net) }
    requires refused { IsRefused asked.now.design.now asked.now.rule.now.formula round net demand book.old.history }
    ensures capacity { OnOk result (book.new.capacity ≡ capacity_of asked.now.design.now) }
    ensures alone { OnOk result
        (IsClaimedAlone (batching_of asked.now) round net book.old.history book.new.history) }
{
    let kind = kind_of(round);
    let tree = plan_again(alloc, asked, round, net, demand, book, planner)?;
    let same = tree.copy(alloc)?;
    let front = book.history().len();
    let within = Claim {
        net,
        tree,
        slack: Some(0),
        front,
        kind,
    };
    if add_claim(book, within)?.is_full() {
        let front = book.history().len();
        let forced = Claim {
            net,
            tree: same,
            slack: None,
            front,
            kind,
        };
        add_claim(book, forced)?;
    }
    Ok(())
}

/// Adds a claim to the book. The only error is want of memory.
pub(crate) fn add_claim(book: &mut BookState, claim: Claim) -> Result<Reply, AllocError>
    requires { IsClaim book.old.capacity (length book.old.history) claim }
    ensures capacity { OnOk result (book.new.capacity ≡ book.old.capacity) }
    ensures reply { IfOk result
        (λ reply. reply ≡ reply_to book.old.capacity book.old.history (Call.Claim claim)) }
    ensures history { OnOk result
        (book.new.history ≡ after_call book.old.capacity book.old.history claimant (Call.Claim claim)) }
{
    match book.claim(CLAIMANT, claim) {
        Ok(reply) => Ok(reply),
        Err(_) => Err(AllocError),
    }
}
