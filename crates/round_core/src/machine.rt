//! What can be asked of the machine.
ghost use Rattle.std.specs.Prelude.{◌≡◌, ◌<◌, ◌≤◌, [], length, IfOk, IfErr, OnOk, OnErr, IsTrue};
ghost use Rattle.gr_base.specs.Limits.{most_rounds, most_workers};
ghost use Rattle.grid_demand.specs.Tables.{capacity_of};
ghost use Rattle.run_histories.specs.RunHistories.{asked_for, IsRunHistory};
ghost use Rattle.round_core.specs.WorldRules.{IsWorld};
ghost use Rattle.round_core.specs.Worlds.{phase_at, since_of, is_allowed, happens, IsStep, IsRefusal, at_first};
ghost use Rattle.round_core.specs.declared.steps.StepRefused.TheVariants.{NoMemory};

use crate::steps::{Phase, Step, StepRefused};
use crate::world::World;
use book_state::BookState;
use cost_rules::{Formula, Watcher};
use gr_base::Design;
use run_histories::routed_nets;
use std::alloc::{AllocError, Global};

impl<'a> World<'a> {
    /// The machine before any step: each routed net is left, and each worker is idle. There are up to
    /// 16 workers and up to 64 rounds after round 0; the watch with its goal may end them earlier. The
    /// only error is want of memory.
    pub fn new(
        alloc: Global,
        design: &'a Design,
        formula: Formula,
        workers: u32,
        rounds: u32,
        watch: &Watcher,
        goal: u128,
    ) -> Result<World<'a>, AllocError>
        requires workers { workers ≤ most_workers }
        requires rounds { rounds ≤ most_rounds }
        ensures { IfOk result (λ world. world
            ≡ at_first (asked_for design.now [] formula workers rounds watch.now.watch goal)) }
    {
        let nets = routed_nets(alloc, design)?;
        Ok(World {
            alloc,
            design,
            formula,
            rounds,
            watch: watch.watch(),
            goal,
            book: BookState::new(alloc, design)?,
            overflow: None,
            round: 0,
            over: false,
            left: nets,
            phases: vec![in alloc; Phase::Idle; workers as usize]?,
            since: vec![in alloc; 0; workers as usize]?,
        })
    }

    /// Takes a step of a worker, or makes the mark that ends a round. A step that the rules don't
    /// allow comes back with the phase, and one for which memory is wanting comes back too; both leave
    /// the machine as it was. The tree of a claim is the plan that its kind names, by the machine's
    /// formula, from the first `front` entries of the history.
    pub fn apply(&mut self, step: Step) -> Result<(), StepRefused>
        requires { IsStep self.old step }
        ensures allowed { OnOk result (IsTrue (is_allowed self.old step)) }
        ensures happens { OnOk result (self.new ≡ happens self.old step) }
        ensures refused { IfErr result (IsRefusal self.old step) }
        ensures same { OnErr result (self.new ≡ self.old) }
        ensures keeps { IsWorld self.new }
    {
        if !self.allows(&step) {
            let phase = self.refused_phase(&step);
            return Err(StepRefused::NotAllowed { phase, step });
        }
        self.carry_out(step)
    }

    /// Takes a step that the rules allow.
    fn carry_out(&mut self, step: Step) -> Result<(), StepRefused>
        requires step { IsStep self.old step }
        requires allowed { IsTrue (is_allowed self.old step) }
        ensures happens { OnOk result (self.new ≡ happens self.old step) }
        ensures refused { IfErr result (λ refused. refused ≡ NoMemory step) }
        ensures same { OnErr result (self.new ≡ self.old) }
    {
        match step {
            Step::Take { worker, net } => {
                self.take(worker, net);
                Ok(())
            }
            Step::Release { worker } => match self.release(worker) {
                Ok(()) => Ok(()),
                Err(_) => Err(StepRefused::NoMemory {
                    step: Step::Release { worker },
                }),
            },
            Step::Claim { worker, claim } => match self.claim(worker, claim) {
                Ok(()) => Ok(()),
                Err(refused) => Err(StepRefused::NoMemory {
                    step: Step::Claim {
                        worker,
                        claim: refused.claim,
                    },
                }),
            },
            Step::Mark => match self.mark() {
                Ok(()) => Ok(()),
                Err(_) => Err(StepRefused::NoMemory { step: Step::Mark }),
            },
        }
    }

    /// The book that the steps made.
    pub fn book(&self) -> &BookState
        ensures capacity { result.now.capacity ≡ capacity_of self.now.setting.design }
        ensures history { result.now.history ≡ self.now.history }
        ensures keeps { IsWorld self.now }
    {
        &self.book
    }

    /// The number of the round, from 0.
    pub fn round(&self) -> u32
        ensures { result ≡ self.now.round }
    {
        self.round
    }

    /// How many nets no worker has taken in this round.
    pub fn left(&self) -> u32
        ensures { result ≡ length self.now.left }
    {
        self.left.len() as u32
    }

    /// Where a worker stands. Once that is `Ended`, the history is a run history.
    pub fn phase(&self, worker: u32) -> Phase
        requires { worker < self.now.setting.workers }
        ensures phase { result ≡ phase_at self.now worker }
        ensures ended { result ≡ Phase.Ended → IsRunHistory self.now.setting self.now.history }
    {
        if self.over {
            return Phase::Ended;
        }
        self.phases[worker as usize]
    }

    /// The length of the history just after a worker's last entry, or 0.
    pub(crate) fn since(&self, worker: u32) -> u64
        requires { worker < self.now.setting.workers }
        ensures { result ≡ since_of self.now worker }
    {
        self.since[worker as usize]
    }
}
