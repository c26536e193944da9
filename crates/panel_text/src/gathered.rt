//! The runs of all routed nets, gathered in one pass.
ghost use Rattle.std.specs.Prelude.{◌≡◌, ℕ, ◌+◌, ◌<◌, List, length, IsTrue, IfOk, OnOk};
ghost use Rattle.gr_base.specs.Designs.{is_routed};
ghost use Rattle.route_evaluator.specs.RunSets.{IsMakerOf, gathered};
ghost use Rattle.route_reader.specs.Solutions.{IsOf, edges_by};
ghost use Rattle.solution_text.specs.Runs.{runs_of_way};
ghost use Rattle.panel_text.specs.Chains.{AreInGrid, HaveChains, with_runs};
ghost use Rattle.panel_text.specs.Gathered.{AreGathered};

use crate::starts::Starts;
use gr_base::{Design, Shape, Way};
use route_evaluator::RunMaker;
use route_reader::Solution;
use solution_text::Run;
use std::alloc::{AllocError, Global};

/// The runs of nets that go East and those that go North.
#[derive(Drop)]
pub(crate) struct RunsByWay {
    pub east: Starts,
    pub north: Starts,
}

/// The runs of all routed nets of a solution. The only error is want of memory.
pub(crate) fn gather(
    alloc: Global,
    design: &Design,
    solution: &Solution,
) -> Result<RunsByWay, AllocError>
    requires { IsOf design.now solution.now }
    ensures { IfOk result (AreGathered design.now (edges_by solution.now) 0) }
{
    let shape = design.frame().shape;
    let mut runs = RunsByWay {
        east: Starts::new(alloc, shape)?,
        north: Starts::new(alloc, shape)?,
    };
    let mut maker = RunMaker::new(alloc, shape)?;
    let mut found = Vec::new(alloc);
    let mut net = design.nets();
    while net > 0 {
        net -= 1;
        if !design.routed(net) {
            continue;
        }
        add_net(&mut runs, &mut maker, &mut found, design, solution, net)?;
    }
    Ok(runs)
}

/// Adds the runs of a routed net to those of the nets behind it. `found` is room that is used anew. The
/// only error is want of memory.
fn add_net(
    runs: &mut RunsByWay,
    maker: &mut RunMaker,
    found: &mut Vec<Run>,
    design: &Design,
    solution: &Solution,
    net: u32,
) -> Result<(), AllocError>
    requires of { IsOf design.now solution.now }
    requires routed { IsTrue (is_routed design.now net) }
    requires maker { IsMakerOf design.now.frame.shape maker.old }
    requires behind { AreGathered design.now (edges_by solution.now) (net + 1) runs.old }
    ensures maker { OnOk result (IsMakerOf design.now.frame.shape maker.new) }
    ensures runs { OnOk result (AreGathered design.now (edges_by solution.now) net runs.new) }
{
    let shape = design.frame().shape;
    maker.gather(design, solution, net)?;
    add_way(&mut runs.east, maker, found, shape, net, Way::East)?;
    add_way(&mut runs.north, maker, found, shape, net, Way::North)?;
    Ok(())
}

/// Adds the gathered runs of a net that go this way. `found` is room that is used anew. The only error
/// is want of memory.
fn add_way(
    starts: &mut Starts,
    maker: &mut RunMaker,
    found: &mut Vec<Run>,
    shape: Shape,
    net: u32,
    way: Way,
) -> Result<(), AllocError>
    requires maker { IsMakerOf shape maker.old }
    requires grid { AreInGrid shape starts.old }
    ensures maker { IsMakerOf shape maker.new }
    ensures edges { gathered maker.new ≡ gathered maker.old }
    ensures grid { OnOk result (AreInGrid shape starts.new) }
    ensures chains { OnOk result ((chains : ℕ → List (ℕ × ℕ)) → HaveChains chains starts.old →
        HaveChains (with_runs net (runs_of_way shape (gathered maker.old) way) chains) starts.new) }
{
    found.clear();
    maker.push_way(found, shape, way)?;
    starts.add_all(shape, net, found)?;
    Ok(())
}
