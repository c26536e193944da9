//! The edges that the runs of a net cover.
ghost use Rattle.std.specs.Prelude.{◌≡◌, ◌<◌, ◌*◌, length, All, OnOk};
ghost use Rattle.gr_base.specs.Grid.{cells_of};
ghost use Rattle.solution_text.specs.Covers.{covers};
ghost use Rattle.solution_text.specs.Runs.{LieIn};
ghost use Rattle.route_reader.specs.Solutions.{IsOf, IsRun, edges_by};
ghost use Rattle.route_evaluator.specs.EdgeNumbers.{edges_numbered};
ghost use Rattle.route_evaluator.specs.Gathers.{covered_by, Adds};
ghost use Rattle.route_evaluator.specs.NumberSets.{empty_set};

use crate::edge_numbers::edge_number;
use crate::number_set::NumberSet;
use gr_base::{Design, Edge, Shape};
use route_reader::Solution;
use solution_text::Run;
use std::alloc::AllocError;

/// Puts the edges that a run covers into a set of edges. At an error a part of them may have been put.
fn add_run(edges: &mut NumberSet, shape: Shape, run: Run) -> Result<(), AllocError>
    requires bound { edges.old.bound ≡ 3 * cells_of shape }
    requires run { IsRun shape run }
    ensures bound { OnOk result (edges.new.bound ≡ edges.old.bound) }
    ensures edges { OnOk result (Adds (covers shape run) edges.old.numbers edges.new.numbers) }
{
    let mut low = run.from.min(run.to);
    let high = run.from.max(run.to);
    let way = shape.way_between(low, high);
    while low < high {
        let edge = Edge { low, way };
        edges.insert(edge_number(edge))?;
        low = shape.high(edge);
    }
    Ok(())
}

/// Puts the edges that runs cover into a set of edges. At an error a part of them may have been put.
pub(crate) fn gather(edges: &mut NumberSet, shape: Shape, runs: &[Run]) -> Result<(), AllocError>
    requires bound { edges.old.bound ≡ 3 * cells_of shape }
    requires runs { All (IsRun shape) runs.now }
    ensures bound { OnOk result (edges.new.bound ≡ edges.old.bound) }
    ensures edges { OnOk result (Adds (covered_by shape runs.now) edges.old.numbers edges.new.numbers) }
{
    for run in runs {
        add_run(edges, shape, *run)?;
    }
    Ok(())
}

/// Puts the edges that the runs of a net in a solution cover into an empty set. The only error is
/// want of memory. At an error a part of the edges may have been put.
pub(crate) fn gather_net(
    edges: &mut NumberSet,
    design: &Design,
    solution: &Solution,
    net: u32,
) -> Result<(), AllocError>
    requires empty { edges.old ≡ empty_set (3 * cells_of design.now.frame.shape) }
    requires of { IsOf design.now solution.now }
    requires net { net < length design.now.nets }
    ensures bound { OnOk result (edges.new.bound ≡ 3 * cells_of design.now.frame.shape) }
    ensures edges { OnOk result (edges_numbered edges.new.numbers ≡ edges_by solution.now net) }
    ensures grid { OnOk result (LieIn design.now.frame.shape (edges_numbered edges.new.numbers)) }
{
    gather(edges, design.frame().shape, solution.runs(net))?;
    Ok(())
}
