//! What is counted of one net: its edges, and whether they join its pins.
ghost use Rattle.std.specs.Prelude.{◌≡◌, ◌==◌, ◌<◌, ◌≤◌, ◌*◌, ◌↔◌, not, count_by, get_or, length, All, IfOk, OnOk, IsTrue};
ghost use Rattle.std.specs.List.{list_all};
ghost use Rattle.gr_base.specs.EdgeSets.{IsJoined};
ghost use Rattle.gr_base.specs.Grid.{cells_of, is_wire};
ghost use Rattle.gr_base.specs.NodeIndexes.{Indexes};
ghost use Rattle.gr_base.specs.Trees.{IsTree, edges_of, holds, tree_edges};
ghost use Rattle.solution_text.specs.Runs.{LieIn};
ghost use Rattle.route_evaluator.specs.EdgeNumbers.{edges_numbered, is_via_number};
ghost use Rattle.route_evaluator.specs.NetCounts.{IsCountOf};
ghost use Rattle.route_evaluator.specs.NumberSets.{empty_set};

use crate::edge_numbers::is_via;
use crate::flood::joins;
use crate::number_set::NumberSet;
use crate::reached::Reached;
use gr_base::{NodeIndex, RouteTree, Shape, Way};
use std::alloc::AllocError;

/// How many wire edges and via edges a net has, and whether they join its pins.
#[derive(Clone, Copy, Debug, PartialEq, Eq)]
pub(crate) struct NetCount {
    pub wires: u64,
    pub vias: u64,
    pub joined: bool,
}

/// Counts the edges of a set, and tells whether they join these pins. The only error is want of
/// memory.
pub(crate) fn count_edges(
    edges: &NumberSet,
    reached: &mut Reached,
    shape: Shape,
    pins: &[u32],
) -> Result<NetCount, AllocError>
    requires reached { reached.old.cells ≡ empty_set (cells_of shape) }
    requires edges { edges.now.bound ≡ 3 * cells_of shape }
    requires grid { LieIn shape (edges_numbered edges.now.numbers) }
    requires pins { All (λ pin. pin < cells_of shape) pins.now }
    requires driver { 0 < length pins.now }
    ensures count { IfOk result (IsCountOf shape (edges_numbered edges.now.numbers) pins.now) }
    ensures clear { OnOk result (reached.new.cells ≡ reached.old.cells) }
{
    let joined = joins(reached, edges, shape, pins)?;
    let vias = count_vias(edges.numbers());
    Ok(NetCount {
        wires: edges.numbers().len() as u64 - vias,
        vias,
        joined,
    })
}

/// Counts the edges of a tree, and tells whether they join these pins. The index serves tree after
/// tree.
pub(crate) fn count_tree(tree: &RouteTree, index: &mut NodeIndex, pins: &[u32]) -> NetCount
    requires index { cells_of tree.now.shape ≤ length index.old }
    requires pins { All (λ pin. pin < cells_of tree.now.shape) pins.now }
    requires driver { 0 < length pins.now }
    ensures count { IsCountOf tree.now.shape (edges_of tree.now) pins.now result }
    ensures index { length index.new ≡ length index.old }
    ensures tree { IsTree tree.now }
{
    index.extend(tree, 0);
    let (wires, vias) = count_ways(tree);
    NetCount {
        wires,
        vias,
        joined: joins_pins(tree, index, pins),
    }
}

/// How many of the edges with these numbers are via edges.
fn count_vias(numbers: &[u32]) -> u64
    ensures { result ≡ count_by is_via_number numbers.now }
{
    let mut vias = 0;
    for number in numbers {
        if is_via(*number) {
            vias += 1;
        }
    }
    vias
}

/// How many wire edges and how many via edges a tree has.
fn count_ways(tree: &RouteTree) -> (u64, u64)
    ensures wires { result.0 ≡ count_by is_wire (tree_edges tree.now) }
    ensures vias { result.1 ≡ count_by (λ e. not (is_wire e)) (tree_edges tree.now) }
    ensures tree { IsTree tree.now }
{
    let mut wires = 0;
    let mut vias = 0;
    for node in 0..tree.len() {
        let Some(edge) = tree.edge_to_parent(node) else {
            continue;
        };
        match edge.way {
            Way::East | Way::North => wires += 1,
            Way::Up => vias += 1,
        }
    }
    (wires, vias)
}

/// Whether the edges of an indexed tree join these pins: whether the tree holds them all, or all are
/// in one cell.
fn joins_pins(tree: &RouteTree, index: &NodeIndex, pins: &[u32]) -> bool
    requires index { Indexes index.now tree.now.nodes }
    requires cells { cells_of tree.now.shape ≤ length index.now }
    requires pins { All (λ pin. pin < cells_of tree.now.shape) pins.now }
    requires driver { 0 < length pins.now }
    requires tree { IsTree tree.now }
    ensures { IsTrue result ↔ IsJoined tree.now.shape (edges_of tree.now) pins.now }
{
    holds_all(tree, index, pins) || are_one(pins)
}

/// Whether an indexed tree holds all these cells.
fn holds_all(tree: &RouteTree, index: &NodeIndex, cells: &[u32]) -> bool
    requires index { Indexes index.now tree.now.nodes }
    requires cells { All (λ cell. cell < length index.now) cells.now }
    ensures { result ≡ list_all (holds tree.now) cells.now }
{
    for cell in cells {
        if index.node_at(tree, *cell).is_none() {
            return false;
        }
    }
    true
}

/// Whether all these cells are the first of them.
fn are_one(cells: &[u32]) -> bool
    requires { 0 < length cells.now }
    ensures { result ≡ list_all (λ cell. cell == get_or cells.now 0 0) cells.now }
{
    cells.iter().all(|cell| *cell == cells[0])
}
