//! The points of a topology, joined to a flat tree one after the other.
ghost use Rattle.std.specs.Prelude.{◌≡◌, ℕ, ◌<◌, ◌≤◌, All, length, IfOk, OnOk, IsTrue};
ghost use Rattle.gr_base.specs.Grid.{cells_of};
ghost use Rattle.gr_base.specs.NodeIndexes.{Indexes};
ghost use Rattle.gr_base.specs.Trees.{IsWalkTo, AddsCells, attached, holds};
ghost use Rattle.pattern_route.specs.Walks.{IsFlat, IsDirect};
ghost use Rattle.net_plan.specs.FlatTrees.{AreTilesIn, cell_of_tile, cell_at_point, cell_above, up_to_tree, walk_up, with_point, tree_of};

use crate::order::order_of;
use crate::pin_tiles::cell_of_tile;
use cost_rules::Costs;
use gr_base::{NodeIndex, RouteTree, Shape};
use pattern_route::pattern;
use std::alloc::{AllocError, Global};
use steiner_topology::Topology;

/// The flat trees of most nets have no more nodes, and take memory once.
const FEW_NODES: usize = 64;

/// What topologies are made trees of, kept from net to net: an index of the tree's nodes, the order
/// of the points with a mark and a number for each, and a walk. What it holds between two calls means
/// nothing.
#[derive(Debug, Drop)]
pub(crate) struct JoinRoom {
    pub(crate) index: NodeIndex,
    pub(crate) order: Vec<u32>,
    pub(crate) handled: Vec<bool>,
    pub(crate) lowest: Vec<u32>,
    pub(crate) walk: Vec<u32>,
}

impl JoinRoom {
    /// Room for the trees of a grid. The only error is want of memory.
    pub(crate) fn new(alloc: Global, shape: Shape) -> Result<JoinRoom, AllocError>
        ensures { IfOk result (λ room. length room.index ≡ cells_of shape) }
    {
        Ok(JoinRoom {
            index: NodeIndex::new(alloc, shape.cells())?,
            order: Vec::new(alloc),
            handled: Vec::new(alloc),
            lowest: Vec::new(alloc),
            walk: Vec::new(alloc),
        })
    }
}

/// The tree of a topology.
pub(crate) fn tree_of<C: Costs>(
    alloc: Global,
    costs: &C,
    shape: Shape,
    topology: &Topology,
    room: &mut JoinRoom,
) -> Result<RouteTree, AllocError>
    requires grid { C.grid costs.now ≡ shape }
    requires flat { IsFlat shape (C.price costs.now) }
    requires inside { AreTilesIn shape topology.now }
    requires room { cells_of shape ≤ length room.old.index }
    ensures tree { IfOk result (λ t. t ≡ tree_of shape (C.price costs.now) topology.now) }
    ensures points { IfOk result (λ t. All (λ p. IsTrue (holds t (cell_of_tile shape p.tile))) topology.now) }
    ensures room { length room.new.index ≡ length room.old.index }
{
    let lowest = &mut room.lowest;
    order_of(topology, &mut room.order, &mut room.handled, lowest)?;
    let first = cell_of_tile(shape, topology.tile(0));
    let mut tree = RouteTree::start_with_room(alloc, shape, first, FEW_NODES)?;
    room.index.extend(&tree, 0);
    for &point in &room.order {
        let walk = &mut room.walk;
        join_point(costs, topology, point, walk, &mut tree, &mut room.index)?;
    }
    Ok(tree)
}

/// Joins a point to its parent, whose tile the tree holds.
fn join_point<C: Costs>(
    costs: &C,
    topology: &Topology,
    point: u32,
    walk: &mut Vec<u32>,
    tree: &mut RouteTree,
    index: &mut NodeIndex,
) -> Result<(), AllocError>
    requires grid { C.grid costs.now ≡ tree.old.shape }
    requires flat { IsFlat tree.old.shape (C.price costs.now) }
    requires inside { AreTilesIn tree.old.shape topology.now }
    requires point { point < length topology.now }
    requires parent { IsTrue (holds tree.old (cell_above tree.old.shape topology.now point)) }
    requires index { Indexes index.old tree.old.nodes }
    requires cells { cells_of tree.old.shape ≤ length index.old }
    ensures tree { OnOk result (tree.new ≡ with_point tree.old.shape (C.price costs.now) topology.now tree.old point) }
    ensures point { OnOk result (IsTrue (holds tree.new (cell_at_point tree.old.shape topology.now point))) }
    ensures kept { OnOk result ((cell : ℕ) → IsTrue (holds tree.old cell) → IsTrue (holds tree.new cell)) }
    ensures index { OnOk result (Indexes index.new tree.new.nodes) }
    ensures cells { length index.new ≡ length index.old }
{
    walk_up(costs, tree.shape(), topology, point, walk)?;
    attach(tree, index, up_to_tree(tree, index, walk))
}

/// Puts the flat walk from a point to its parent in place of what a list holds.
fn walk_up<C: Costs>(
    costs: &C,
    shape: Shape,
    topology: &Topology,
    point: u32,
    walk: &mut Vec<u32>,
) -> Result<(), AllocError>
    requires grid { C.grid costs.now ≡ shape }
    requires flat { IsFlat shape (C.price costs.now) }
    requires inside { AreTilesIn shape topology.now }
    requires point { point < length topology.now }
    ensures walk { OnOk result (walk.new.items ≡ walk_up shape (C.price costs.now) topology.now point) }
    ensures direct { OnOk result (IsDirect shape (cell_at_point shape topology.now point)
        (cell_above shape topology.now point) walk.new.items) }
{
    let from = cell_of_tile(shape, topology.tile(point));
    let to = cell_of_tile(shape, topology.tile(topology.parent(point)));
    pattern(costs, shape, from, to, walk)
}

/// A walk up to its first cell in an indexed tree.
fn up_to_tree<'a>(tree: &RouteTree, index: &NodeIndex, walk: &'a [u32]) -> &'a [u32]
    requires index { Indexes index.now tree.now.nodes }
    requires cells { All (λ cell. cell < length index.now) walk.now }
    ensures { result.now ≡ up_to_tree tree.now walk.now }
{
    for at in 0..walk.len() {
        if index.node_at(tree, walk[at]).is_some() {
            return &walk[..at + 1];
        }
    }
    walk
}

/// Hangs a walk on an indexed tree as `RouteTree::attach` does, and takes it into the index. The only
/// error is want of memory.
fn attach(tree: &mut RouteTree, index: &mut NodeIndex, walk: &[u32]) -> Result<(), AllocError>
    requires walk { IsWalkTo tree.old walk.now }
    requires index { Indexes index.old tree.old.nodes }
    requires cells { cells_of tree.old.shape ≤ length index.old }
    ensures tree { OnOk result (tree.new ≡ attached tree.old walk.now) }
    ensures adds { OnOk result (AddsCells tree.old walk.now tree.new) }
    ensures index { OnOk result (Indexes index.new tree.new.nodes) }
    ensures cells { length index.new ≡ length index.old }
{
    let first = tree.len();
    let parent = index.node_at(tree, walk[walk.len() - 1]).unwrap();
    tree.hang(parent, walk)?;
    index.extend(tree, first);
    Ok(())
}
