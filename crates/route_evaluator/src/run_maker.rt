//! The straight runs of the edges of nets.
ghost use Rattle.std.specs.Prelude.{◌≡◌, ◌<◌, ◌++◌, length, IfOk, OnOk};
ghost use Rattle.solution_text.specs.Runs.{runs_of, runs_of_way};
ghost use Rattle.route_reader.specs.Solutions.{IsOf, edges_by};
ghost use Rattle.route_evaluator.specs.RunSets.{IsMakerOf, gathered};

use crate::edge_numbers::list_edges;
use crate::gather::gather_net;
use crate::number_set::NumberSet;
use crate::straight_list::Straight;
use gr_base::{Design, Edge, Shape, Way};
use route_reader::Solution;
use solution_text::Run;
use std::alloc::{AllocError, Global};
use straight_runs::push_way;

/// The edges of a net, and the sets in which they are gathered net after net.
#[derive(Drop)]
pub struct RunMaker {
    pub(crate) covered: NumberSet,
    pub(crate) edges: Vec<Edge>,
    pub(crate) lows: Vec<u32>,
}

impl RunMaker {
    /// Sets for a grid. The only error is want of memory.
    pub fn new(alloc: Global, shape: Shape) -> Result<RunMaker, AllocError>
        ensures { IfOk result (IsMakerOf shape) }
    {
        Ok(RunMaker {
            covered: NumberSet::new(alloc, 3 * shape.cells())?,
            edges: Vec::new(alloc),
            lows: Vec::new(alloc),
        })
    }

    /// Gathers the edges of a net in a solution, in the place of those gathered last. The only error is
    /// want of memory. At an error a part of the edges may have been gathered, and the maker is of no
    /// further use. The time is that of these edges, whatever the size of the grid.
    pub fn gather(
        &mut self,
        design: &Design,
        solution: &Solution,
        net: u32,
    ) -> Result<(), AllocError>
        requires of { IsOf design.now solution.now }
        requires net { net < length design.now.nets }
        requires maker { IsMakerOf design.now.frame.shape self.old }
        ensures maker { OnOk result (IsMakerOf design.now.frame.shape self.new) }
        ensures edges { OnOk result (gathered self.new ≡ edges_by solution.now net) }
    {
        self.covered.clear();
        gather_net(&mut self.covered, design, solution, net)?;
        list_edges(&mut self.edges, self.covered.numbers())?;
        Ok(())
    }

    /// Adds the maximal straight runs of the gathered edges that go this way, each once, rising by
    /// their low ends. The only error is want of memory. At an error the first of the runs may have
    /// been added. The time is that of sorting the edges.
    pub fn push_way(
        &mut self,
        runs: &mut Vec<Run>,
        shape: Shape,
        way: Way,
    ) -> Result<(), AllocError>
        requires { IsMakerOf shape self.old }
        ensures maker { IsMakerOf shape self.new }
        ensures edges { gathered self.new ≡ gathered self.old }
        ensures runs { OnOk result (runs.new.items ≡ runs.old.items ++ runs_of_way shape (gathered self.old) way) }
    {
        push_way(runs, &mut self.lows, shape, &self.edges, way)
    }
}

/// The maximal straight runs of a net's edges in a solution, in the order in which they are written,
/// as a `RunMaker` gives them. The only error is want of memory.
pub fn straight(
    alloc: Global,
    design: &Design,
    solution: &Solution,
    net: u32,
) -> Result<Straight, AllocError>
    requires of { IsOf design.now solution.now }
    requires net { net < length design.now.nets }
    ensures { IfOk result (λ straight. straight ≡ runs_of design.now.frame.shape (edges_by solution.now net)) }
{
    let shape = design.frame().shape;
    let mut maker = RunMaker::new(alloc, shape)?;
    let mut runs = Vec::new(alloc);
    maker.gather(design, solution, net)?;
    maker.push_way(&mut runs, shape, Way::East)?;
    maker.push_way(&mut runs, shape, Way::North)?;
    maker.push_way(&mut runs, shape, Way::Up)?;
    Ok(Straight { runs })
}
