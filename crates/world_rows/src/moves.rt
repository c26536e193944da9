//! Steps of the machine, and plans for its claims.
ghost use Rattle.std.specs.Prelude.{◌≡◌, ◌<◌, ◌≤◌, length, take, IfOk, OnOk, IsTrue};
ghost use Rattle.book_state.specs.Books.{IsClaim};
ghost use Rattle.cost_rules.specs.declared.site.Formula.TheVariants.{First};
ghost use Rattle.gr_base.specs.Designs.{IsDesign, is_routed};
ghost use Rattle.grid_demand.specs.Tables.{capacity_of};
ghost use Rattle.round_core.specs.Worlds.{IsStep};
ghost use Rattle.run_histories.specs.RunHistories.{IsPlanOver};
ghost use Rattle.world_rows.specs.Plays.{IsPlayed};

use crate::tellings::{put_phase, put_reply};
use book_state::Claim;
use cost_rules::CostRule;
use gr_base::Design;
use gr_text::Text;
use grid_demand::Capacity;
use net_plan::Planner;
use round_core::{Phase, Step, StepRefused, World};
use run_histories::{kind_of, plan_of};
use std::alloc::{AllocError, Global};

/// The last round.
const MOST_ROUNDS: u32 = 64;

/// What a play is about.
#[derive(Clone, Copy)]
pub(crate) struct Table<'a> {
    pub(crate) design: &'a Design,
    pub(crate) capacity: &'a Capacity,
    pub(crate) rule: &'a CostRule,
    pub(crate) workers: u32,
    pub(crate) ghost capacity_is: { capacity.now ≡ capacity_of design.now },
    pub(crate) ghost formula: { rule.now.formula ≡ First },
}

/// Takes the step of this name by a worker, at a net where it takes one, and tells of it.
pub(crate) fn step(
    alloc: Global,
    table: &Table<'_>,
    world: &mut World<'_>,
    planner: &mut Planner,
    name: &str,
    worker: u32,
    net: u32,
    told: &mut Text,
) -> Result<(), AllocError>
    requires played { IsPlayed table.now.design.now table.now.workers world.old.setting }
    ensures setting { OnOk result (world.new.setting ≡ world.old.setting) }
{
    told.put(name.as_bytes())?;
    if worker >= table.workers || net >= table.design.nets() {
        return told.put(b": nobody\n");
    }
    match name {
        "take" => put_step(told, world, worker, Step::Take { worker, net }),
        "release" => put_step(told, world, worker, Step::Release { worker }),
        "mark" => put_step(told, world, worker, Step::Mark),
        "claim" => {
            let front = world.book().history().len();
            claim(alloc, table, world, planner, worker, front, told)
        }
        "early" => claim(alloc, table, world, planner, worker, 0, told),
        _ => told.put(b": no step\n"),
    }
}

/// A worker's claim of its net, as its phase wants it, for the plan over so many entries.
fn claim(
    alloc: Global,
    table: &Table<'_>,
    world: &mut World<'_>,
    planner: &mut Planner,
    worker: u32,
    front: u64,
    told: &mut Text,
) -> Result<(), AllocError>
    requires played { IsPlayed table.now.design.now table.now.workers world.old.setting }
    requires worker { worker < table.now.workers }
    requires front { front ≤ length world.old.history }
    ensures setting { OnOk result (world.new.setting ≡ world.old.setting) }
{
    let net = net_of(world.phase(worker));
    if net >= table.design.nets() || !table.design.routed(net) {
        return told.put(b": no net\n");
    }
    let slack = slack_of(world.phase(worker));
    let claim = planned(alloc, table, world, planner, net, slack, front)?;
    put_step(told, world, worker, Step::Claim { worker, claim })
}

/// The net at which a worker is, or 0.
fn net_of(phase: Phase) -> u32 {
    match phase {
        Phase::Holding { net } | Phase::Trying { net, .. } => net,
        Phase::Idle | Phase::Ended => 0,
    }
}

/// The slack that a worker's next claim is to have.
fn slack_of(phase: Phase) -> Option<u32> {
    match phase {
        Phase::Trying { tries: 0 | 1, .. } => Some(0),
        _ => None,
    }
}

/// A claim of a net for its plan in this round over so many entries.
fn planned(
    alloc: Global,
    table: &Table<'_>,
    world: &World<'_>,
    planner: &mut Planner,
    net: u32,
    slack: Option<u32>,
    front: u64,
) -> Result<Claim, AllocError>
    requires design { IsDesign table.now.design.now }
    requires played { IsPlayed table.now.design.now table.now.workers world.now.setting }
    requires net { IsTrue (is_routed table.now.design.now net) }
    requires front { front ≤ length world.now.history }
    ensures claim { IfOk result (IsClaim (capacity_of world.now.setting.design) (length world.now.history)) }
    ensures plan { IfOk result (λ claim. IsPlanOver world.now.setting (take claim.front world.now.history) claim) }
{
    let kind = kind_of(world.round().min(MOST_ROUNDS));
    let loads = world.book().loads_at(table.capacity, front)?;
    let (design, rule) = (table.design, table.rule);
    let tree = plan_of(
        alloc,
        planner,
        design,
        table.capacity,
        &loads,
        net,
        kind,
        rule,
    )?;
    Ok(Claim {
        net,
        tree,
        slack,
        front,
        kind,
    })
}

/// Takes a step, and tells whether it was allowed, and where it leaves its worker.
fn put_step(
    told: &mut Text,
    world: &mut World<'_>,
    worker: u32,
    step: Step,
) -> Result<(), AllocError>
    requires step { IsStep world.old step }
    requires worker { worker < world.old.setting.workers }
    ensures setting { OnOk result (world.new.setting ≡ world.old.setting) }
{
    let before = world.book().history().len();
    match world.apply(step) {
        Ok(()) => told.put(b": Ok")?,
        Err(StepRefused::NotAllowed { phase, .. }) => {
            told.put(b": not allowed at")?;
            put_phase(told, phase)?;
            return told.put(b"\n");
        }
        Err(StepRefused::NoMemory { .. }) => return Err(AllocError),
    }
    put_reply(told, world.book().history(), before)?;
    told.put(b", then")?;
    put_phase(told, world.phase(worker))?;
    told.put(b"\n")
}
