//! Makes the tree of a net's edges in a solution, or finds that they are no tree; its sets serve net after net.
ghost use Rattle.std.specs.Prelude.{◌≡◌, ◌<◌, ◌*◌, Err, length, slice_get, All, IsTrue, IfOk, OnOk};
ghost use Rattle.gr_base.specs.Designs.{is_routed, pins_at};
ghost use Rattle.gr_base.specs.Grid.{cells_of};
ghost use Rattle.gr_base.specs.Plans.{IsRouteOfNet};
ghost use Rattle.gr_base.specs.Trees.{IsTree, cell_at, holds};
ghost use Rattle.solution_text.specs.Runs.{LieIn};
ghost use Rattle.route_reader.specs.Solutions.{IsOf, edges_by};
ghost use Rattle.route_evaluator.specs.EdgeNumbers.{edges_numbered};
ghost use Rattle.route_evaluator.specs.NumberSets.{empty_set};
ghost use Rattle.route_evaluator.specs.Floods.{IsReach};
ghost use Rattle.route_evaluator.specs.NetTrees.{AreTree, HasJust};
ghost use Rattle.route_evaluator.specs.TreeSets.{AreSetsOf};

use crate::flood::flood;
use crate::gather::gather_net;
use crate::number_set::NumberSet;
use crate::reached::Reached;
use crate::tree_error::TreeError;
use gr_base::{Design, RouteTree, Shape};
use route_reader::Solution;
use std::alloc::{AllocError, Global};

/// The sets of edges and cells in which the trees of nets are made, net after net. What they hold
/// before a call means nothing.
#[derive(Drop)]
pub struct TreeMaker {
    pub(crate) edges: NumberSet,
    pub(crate) reached: Reached,
}

impl TreeMaker {
    /// Sets for a grid. The only error is want of memory.
    pub fn new(alloc: Global, shape: Shape) -> Result<TreeMaker, AllocError>
        ensures { IfOk result (AreSetsOf shape) }
    {
        Ok(TreeMaker {
            edges: NumberSet::new(alloc, 3 * shape.cells())?,
            reached: Reached::new(alloc, shape)?,
        })
    }

    /// The tree of a routed net's edges in a solution, from the cell of its first pin. `NotTree`
    /// comes exactly where they are no tree: where, between some two of the cells that are ends of
    /// the edges or cells of the pins, no path leads along them or more than one. After want of memory
    /// the sets mean nothing, and the maker is of no further use.
    pub fn tree_of(
        &mut self,
        alloc: Global,
        design: &Design,
        solution: &Solution,
        net: u32,
    ) -> Result<RouteTree, TreeError>
        requires of { IsOf design.now solution.now }
        requires routed { IsTrue (is_routed design.now net) }
        requires sets { AreSetsOf design.now.frame.shape self.old }
        ensures tree { IfOk result IsTree }
        ensures edges { IfOk result (HasJust (edges_by solution.now net)) }
        ensures routes { IfOk result (IsRouteOfNet design.now net) }
        ensures ok { OnOk result (AreTree design.now.frame.shape (edges_by solution.now net) (pins_at design.now net)) }
        ensures not_tree { result ≡ Err TreeError.NotTree →
            ¬ AreTree design.now.frame.shape (edges_by solution.now net) (pins_at design.now net) }
        ensures sets { OnOk result (AreSetsOf design.now.frame.shape self.new) }
        ensures sets_stay { result ≡ Err TreeError.NotTree → AreSetsOf design.now.frame.shape self.new }
    {
        self.edges.clear();
        self.reached.cells.clear();
        gather_net(&mut self.edges, design, solution, net)?;
        let pins = design.net(net).pins.as_slice();
        tree_along(
            alloc,
            &mut self.reached,
            &self.edges,
            design.frame().shape,
            pins,
        )
    }
}

/// The tree of one routed net's edges in a solution, as a `TreeMaker` gives it.
pub fn tree_of(
    alloc: Global,
    design: &Design,
    solution: &Solution,
    net: u32,
) -> Result<RouteTree, TreeError>
    requires of { IsOf design.now solution.now }
    requires routed { IsTrue (is_routed design.now net) }
    ensures tree { IfOk result IsTree }
    ensures edges { IfOk result (HasJust (edges_by solution.now net)) }
    ensures routes { IfOk result (IsRouteOfNet design.now net) }
    ensures ok { OnOk result (AreTree design.now.frame.shape (edges_by solution.now net) (pins_at design.now net)) }
    ensures not_tree { result ≡ Err TreeError.NotTree →
        ¬ AreTree design.now.frame.shape (edges_by solution.now net) (pins_at design.now net) }
{
    let mut maker = TreeMaker::new(alloc, design.frame().shape)?;
    maker.tree_of(alloc, design, solution, net)
}

/// The tree of these edges, from the first pin's cell. They are a tree where the tree of the cells
/// that are reached from there has as many edges, and each pin is reached.
fn tree_along(
    alloc: Global,
    reached: &mut Reached,
    edges: &NumberSet,
    shape: Shape,
    pins: &[u32],
) -> Result<RouteTree, TreeError>
    requires reached { reached.old.cells ≡ empty_set (cells_of shape) }
    requires edges { edges.now.bound ≡ 3 * cells_of shape }
    requires grid { LieIn shape (edges_numbered edges.now.numbers) }
    requires driver { 0 < length pins.now }
    requires pins { All (λ pin. pin < cells_of shape) pins.now }
    ensures tree { IfOk result IsTree }
    ensures shape { IfOk result (λ t. t.shape ≡ shape) }
    ensures driver { IfOk result (λ t. cell_at t.nodes 0 ≡ slice_get pins.now 0) }
    ensures edges { IfOk result (HasJust (edges_numbered edges.now.numbers)) }
    ensures pins { IfOk result (λ t. All (λ pin. IsTrue (holds t pin)) pins.now) }
    ensures ok { OnOk result (AreTree shape (edges_numbered edges.now.numbers) pins.now) }
    ensures not_tree { result ≡ Err TreeError.NotTree → ¬ AreTree shape (edges_numbered edges.now.numbers) pins.now }
    ensures bound { OnOk result (reached.new.cells.bound ≡ cells_of shape) }
    ensures bound_stays { result ≡ Err TreeError.NotTree → reached.new.cells.bound ≡ cells_of shape }
{
    let tree = tree_from(alloc, reached, edges, shape, pins[0])?;
    if edges.numbers().len() + 1 != tree.len() as usize || !reached.cells.has_all(pins) {
        return Err(TreeError::NotTree);
    }
    Ok(tree)
}

/// The tree of all cells to which walks along the edges of the set lead from a cell: each hangs on
/// the one that it was reached from. The only error is want of memory.
fn tree_from(
    alloc: Global,
    reached: &mut Reached,
    edges: &NumberSet,
    shape: Shape,
    first: u32,
) -> Result<RouteTree, AllocError>
    requires edges { edges.now.bound ≡ 3 * cells_of shape }
    requires grid { LieIn shape (edges_numbered edges.now.numbers) }
    requires reached { reached.old.cells ≡ empty_set (cells_of shape) }
    requires first { first < cells_of shape }
    ensures bound { OnOk result (reached.new.cells.bound ≡ cells_of shape) }
    ensures tree { IfOk result (IsReach shape (edges_numbered edges.now.numbers) first reached.new.cells.numbers) }
{
    flood(reached, edges, shape, first)?;
    let cells = reached.cells.numbers();
    let mut tree = RouteTree::start(alloc, shape, first)?;
    for place in 1..cells.len() {
        let parent = reached.parents[place];
        tree.hang(parent, &[cells[place], cells[parent as usize]])?;
    }
    Ok(tree)
}
