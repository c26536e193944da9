//! What the phases of workers allow, and how calls change them.
ghost use Rattle.std.specs.Prelude.{◌≡◌, ◌≤◌, ◌==◌};
ghost use Rattle.std.specs.List.{list_any};
ghost use Rattle.gr_base.specs.Limits.{most_rounds};
ghost use Rattle.run_histories.specs.Attempts.{is_kind as kind_test, is_slack as slack_test, is_claim_for as claim_test};
ghost use Rattle.round_core.specs.Worlds.{is_idle as idle_test, is_holding as holding_test, first_busy as first_busy_in, slack_after as slack_by, allows_claim as claim_allowed, net_in, tries_in, phase_replied as phase_by};

use crate::steps::Phase;
use book_state::{Claim, PlanKind, Reply};
use run_histories::kind_of;

pub(crate) fn is_idle(phase: Phase) -> bool
    ensures { result ≡ idle_test phase }
{
    match phase {
        Phase::Idle => true,
        Phase::Holding { .. } | Phase::Trying { .. } | Phase::Ended => false,
    }
}

pub(crate) fn is_holding(phase: Phase) -> bool
    ensures { result ≡ holding_test phase }
{
    match phase {
        Phase::Holding { .. } => true,
        Phase::Idle | Phase::Trying { .. } | Phase::Ended => false,
    }
}

/// The phase of the first worker that isn't idle.
pub(crate) fn first_busy(phases: &[Phase]) -> Option<Phase>
    ensures { result ≡ first_busy_in phases.now }
{
    for &phase in phases {
        if !is_idle(phase) {
            return Some(phase);
        }
    }
    None
}

/// Whether a net is in a list.
pub(crate) fn is_in(nets: &[u32], net: u32) -> bool
    ensures { result ≡ list_any (λ left. left == net) nets.now }
{
    nets.iter().any(|left| *left == net)
}

/// The net that a worker holds or tries, or 0.
pub(crate) fn net_of(phase: Phase) -> u32
    ensures { result ≡ net_in phase }
{
    match phase {
        Phase::Holding { net } | Phase::Trying { net, .. } => net,
        Phase::Idle | Phase::Ended => 0,
    }
}

/// How often a worker has tried its net.
pub(crate) fn tries_of(phase: Phase) -> u32
    ensures { result ≡ tries_in phase }
{
    match phase {
        Phase::Trying { tries, .. } => tries,
        Phase::Idle | Phase::Holding { .. } | Phase::Ended => 0,
    }
}

/// The phase after a claim that was answered so: a worker whose claim was Full tries on.
pub(crate) fn phase_replied(net: u32, tries: u32, since: u64, reply: Reply) -> Phase
    requires { tries ≤ 2 }
    ensures { result ≡ phase_by net tries since reply }
{
    match reply {
        Reply::Full { .. } => Phase::Trying {
            net,
            tries: tries + 1,
            since,
        },
        Reply::Claimed | Reply::Taken | Reply::Released | Reply::NotBooked | Reply::Marked { .. } =>
            { Phase::Idle }
    }
}

/// Whether the rules allow a worker in a phase this claim in a round.
pub(crate) fn allows_claim(round: u32, phase: Phase, claim: &Claim) -> bool
    requires { round ≤ most_rounds }
    ensures { result ≡ claim_allowed round phase claim.now }
{
    match phase {
        Phase::Holding { net } => round == 0 && is_claim_for(net, PlanKind::Pattern, None, claim),
        Phase::Trying { net, tries, .. } => {
            is_claim_for(net, kind_of(round), slack_after(tries), claim)
        }
        Phase::Idle | Phase::Ended => false,
    }
}

/// The slack of a claim after so many tries.
fn slack_after(tries: u32) -> Option<u32>
    ensures { result ≡ slack_by tries }
{
    if tries < 2 { Some(0) } else { None }
}

fn is_claim_for(net: u32, kind: PlanKind, slack: Option<u32>, claim: &Claim) -> bool
    ensures { result ≡ claim_test net kind slack claim.now }
{
    net == claim.net && is_kind(kind, claim.kind) && is_slack(slack, claim.slack)
}

fn is_kind(kind: PlanKind, other: PlanKind) -> bool
    ensures { result ≡ kind_test kind other }
{
    match (kind, other) {
        (PlanKind::Pattern, PlanKind::Pattern) => true,
        (PlanKind::Maze { margin }, PlanKind::Maze { margin: other }) => margin == other,
        (PlanKind::Given, PlanKind::Given) => true,
        (PlanKind::Pattern, PlanKind::Maze { .. } | PlanKind::Given)
        | (PlanKind::Maze { .. }, PlanKind::Pattern | PlanKind::Given)
        | (PlanKind::Given, PlanKind::Pattern | PlanKind::Maze { .. }) => false,
    }
}

fn is_slack(slack: Option<u32>, other: Option<u32>) -> bool
    ensures { result ≡ slack_test slack other }
{
    match (slack, other) {
        (None, None) => true,
        (Some(slack), Some(other)) => slack == other,
        (None, Some(_)) | (Some(_), None) => false,
    }
}
