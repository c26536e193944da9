//! The steps of the machine, each where the rules allow it.
ghost use Rattle.std.specs.Prelude.{◌≡◌, ◌<◌, Some, IfErr, OnOk, OnErr, IsSome, IsTrue};
ghost use Rattle.book_state.specs.Marks.{overflow_in as overflow_of};
ghost use Rattle.cost_rules.specs.Watching.{watch_says};
ghost use Rattle.round_core.specs.WorldRules.{IsWorld};
ghost use Rattle.round_core.specs.Worlds.{is_allowed, refused_phase as phase_refused, happens, goes_on_by, is_on as is_on_by, IsStep};

use crate::phases::{
    allows_claim, first_busy, is_holding, is_idle, is_in, net_of, phase_replied, tries_of,
};
use crate::steps::{Phase, Step};
use crate::world::World;
use book_state::{Claim, ClaimRefused, Reply};
use cost_rules::{Going, Sight, Watch, goal, never, still};
use run_histories::MARKER;
use std::alloc::AllocError;

impl<'a> World<'a> {
    /// Whether the rules allow a step.
    pub(crate) fn allows(&self, step: &Step) -> bool
        requires { IsStep self.now step.now }
        ensures allowed { result ≡ is_allowed self.now step.now }
        ensures keeps { IsWorld self.now }
    {
        match step {
            Step::Take { worker, net } => is_idle(self.phase(*worker)) && is_in(&self.left, *net),
            Step::Release { worker } => self.round > 0 && is_holding(self.phase(*worker)),
            Step::Claim { worker, claim } => {
                self.since(*worker) <= claim.front
                    && allows_claim(self.round, self.phase(*worker), claim)
            }
            Step::Mark => {
                !self.over && first_busy(&self.phases).is_none() && self.left.is_empty()
            }
        }
    }

    /// The phase that a refusal of a step names.
    pub(crate) fn refused_phase(&self, step: &Step) -> Phase
        requires { IsStep self.now step.now }
        ensures { result ≡ phase_refused self.now step.now }
    {
        match step {
            Step::Take { worker, .. } | Step::Release { worker } | Step::Claim { worker, .. } => {
                self.phase(*worker)
            }
            Step::Mark => {
                if self.over {
                    return Phase::Ended;
                }
                first_busy(&self.phases).unwrap_or(Phase::Idle)
            }
        }
    }

    /// A worker takes a net.
    pub(crate) fn take(&mut self, worker: u32, net: u32)
        requires worker { worker < self.old.setting.workers }
        requires allowed { IsTrue (is_allowed self.old (Step.Take worker net)) }
        ensures { self.new ≡ happens self.old (Step.Take worker net) }
    {
        self.left.retain(|left| *left != net);
        self.phases[worker as usize] = Phase::Holding { net };
    }

    /// A worker releases the net that it holds. The only error is want of memory, and changes nothing.
    pub(crate) fn release(&mut self, worker: u32) -> Result<(), AllocError>
        requires worker { worker < self.old.setting.workers }
        requires allowed { IsTrue (is_allowed self.old (Step.Release worker)) }
        ensures ok { OnOk result (self.new ≡ happens self.old (Step.Release worker)) }
        ensures err { OnErr result (self.new ≡ self.old) }
    {
        let net = net_of(self.phases[worker as usize]);
        self.book.release(worker + 1, net)?;
        let since = self.book.history().len();
        self.phases[worker as usize] = Phase::Trying {
            net,
            tries: 0,
            since,
        };
        self.since[worker as usize] = since;
        Ok(())
    }

    /// A worker claims the net that it holds or tries. The claim comes back only for want of memory,
    /// and nothing is changed.
    pub(crate) fn claim(&mut self, worker: u32, claim: Claim) -> Result<(), ClaimRefused>
        requires step { IsStep self.old (Step.Claim worker claim) }
        requires allowed { IsTrue (is_allowed self.old (Step.Claim worker claim)) }
        ensures ok { OnOk result (self.new ≡ happens self.old (Step.Claim worker claim)) }
        ensures err { OnErr result (self.new ≡ self.old) }
        ensures back { IfErr result (λ refused. refused.claim ≡ claim) }
    {
        let net = claim.net;
        let tries = tries_of(self.phases[worker as usize]);
        let reply = self.book.claim(worker + 1, claim)?;
        let since = self.book.history().len();
        self.phases[worker as usize] = phase_replied(net, tries, since, reply);
        self.since[worker as usize] = since;
        Ok(())
    }

    /// Marks the end of the round, and begins the next or ends the rounds. The only error is want of
    /// memory, and changes nothing.
    pub(crate) fn mark(&mut self) -> Result<(), AllocError>
        requires { IsTrue (is_allowed self.old Step.Mark) }
        ensures ok { OnOk result (self.new ≡ happens self.old Step.Mark) }
        ensures err { OnErr result (self.new ≡ self.old) }
    {
        let victims = self.book.victims()?;
        let left = Vec::from_slice(self.alloc, victims.as_slice())?;
        let overflow = overflow_in(self.book.mark(MARKER)?);
        let sight = Sight {
            overflow,
            before: self.overflow,
            goal: self.goal,
        };
        self.overflow = Some(overflow);
        if goes_on(self.round, self.rounds, &left, says(self.watch, sight)) {
            self.round += 1;
            self.left = left;
        } else {
            self.over = true;
        }
        Ok(())
    }
}

/// The overflow that a mark was answered with.
fn overflow_in(reply: Reply) -> u128
    requires { IsSome (overflow_of reply) }
    ensures { overflow_of reply ≡ Some result }
{
    let Reply::Marked { overflow } = reply else {
        unreachable!()
    };
    overflow
}

/// What a watch says.
fn says(watch: Watch, sight: Sight) -> Going
    ensures { result ≡ watch_says watch sight }
{
    match watch {
        Watch::Never => never(sight),
        Watch::Still => still(sight),
        Watch::Goal => goal(sight),
    }
}

/// Whether another round begins, with these victims.
fn goes_on(round: u32, rounds: u32, victims: &[u32], going: Going) -> bool
    ensures { result ≡ goes_on_by round rounds victims.now going }
{
    round < rounds && !victims.is_empty() && is_on(going)
}

fn is_on(going: Going) -> bool
    ensures { result ≡ is_on_by going }
{
    match going {
        Going::On => true,
        Going::Stop => false,
    }
}
