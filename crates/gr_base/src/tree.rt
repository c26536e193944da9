//! Trees of cells: the routes of nets.
ghost use Rattle.std.specs.Prelude.{◌≡◌, ℕ, ◌+◌, ◌-◌, ◌<◌, ◌≤◌, ◌∷◌, [], length, slice_get, Some, IfOk, IfSome, OnOk, OnErr, IsSome, IsTrue, ◌↔◌};
ghost use Rattle.std.specs.Arc.{arc_value};
ghost use Rattle.std.specs.List.{position};
ghost use Rattle.gr_base.specs.Grid.{cells_of, has_edge};
ghost use Rattle.gr_base.specs.Limits.{most_cells};
ghost use Rattle.gr_base.specs.ParentEdges.{parent_edge, edge_apart as apart_edge, wire_to_parent as parent_wire};
ghost use Rattle.gr_base.specs.Trees.{TreeView, node_of, cell_at, parent_at, node_with, has_cell, holds, IsTree, HasGridEdges, HasDistinctEdges, IsConnected, IsWalkTo, attached, Grows, Begins, AddsCells, AddsEdges};

use crate::grid::{Edge, Shape, Way};
use std::alloc::{AllocError, Global};
use std::marker::Model;
use std::sync::Arc;

/// A node of a tree: the number of its cell, and the number of its parent among the tree's nodes.
#[derive(Clone, Copy, Debug, PartialEq, Eq)]
pub struct Node {
    pub cell: u32,
    pub parent: u32,
}

/// A tree of cells of a grid, as the route of a net. Nodes count from 0 in the order in which they
/// were added. Their cells are distinct. Node 0 is its own parent, and each other parent is an
/// earlier node in a neighbouring cell. Copies share the nodes.
#[derive(Debug, Drop)]
pub struct RouteTree {
    shape: Shape,
    nodes: Arc<Vec<Node>>,
}

impl Model for RouteTree {
    ghost use Rattle.std.specs.Arc.{arc_value};
    ghost use Rattle.gr_base.specs.Trees.{TreeView, IsTree};

    ghost Value = { TreeView };

    ghost view = { λ t. record { shape = t.shape; nodes = (arc_value t.nodes).items } };

    ghost invariant = { λ t. IsTree (record { shape = t.shape; nodes = (arc_value t.nodes).items }) };
}

impl RouteTree {
    /// A tree of one node. The only error is want of memory.
    pub fn start(alloc: Global, shape: Shape, cell: u32) -> Result<RouteTree, AllocError>
        requires { cell < cells_of shape }
        ensures tree { IfOk result (λ t. t ≡ record { shape = shape; nodes = node_of cell 0 ∷ [] }) }
    {
        RouteTree::start_with_room(alloc, shape, cell, 1)
    }

    /// A tree of one node, which takes no more memory until it has so many nodes. The only error is
    /// want of memory.
    pub fn start_with_room(
        alloc: Global,
        shape: Shape,
        cell: u32,
        room: usize,
    ) -> Result<RouteTree, AllocError>
        requires { cell < cells_of shape }
        ensures tree { IfOk result (λ t. t ≡ record { shape = shape; nodes = node_of cell 0 ∷ [] }) }
    {
        let mut nodes = Vec::with_capacity(alloc, room)?;
        nodes.push(Node { cell, parent: 0 })?;
        Ok(RouteTree {
            shape,
            nodes: Arc::new(alloc, nodes)?,
        })
    }

    /// The grid that the tree lies in. Its clauses also say what holds of every tree.
    pub fn shape(&self) -> Shape
        ensures shape { result ≡ self.now.shape }
        ensures tree { IsTree self.now }
        ensures edges { HasGridEdges self.now }
        ensures distinct { HasDistinctEdges self.now }
        ensures joined { IsConnected self.now }
    {
        self.shape
    }

    /// How many nodes the tree has: at least one, and at most one for each cell of the grid.
    pub fn len(&self) -> u32
        ensures len { result ≡ length self.now.nodes }
        ensures most { result ≤ cells_of self.now.shape }
        ensures tree { IsTree self.now }
    {
        self.nodes.len() as u32
    }

    /// The number of a node's cell.
    pub fn cell(&self, node: u32) -> u32
        requires { node < length self.now.nodes }
        ensures cell { cell_at self.now.nodes node ≡ Some result }
        ensures inside { result < cells_of self.now.shape }
        ensures only { node_with self.now.nodes result ≡ Some node }
        ensures tree { IsTree self.now }
    {
        self.nodes[node as usize].cell
    }

    /// The number of a node's parent: node 0 for node 0, and an earlier node for any other.
    pub fn parent(&self, node: u32) -> u32
        requires { node < length self.now.nodes }
        ensures parent { parent_at self.now.nodes node ≡ Some result }
        ensures earlier { 0 < node → result < node }
        ensures root { node ≡ 0 → result ≡ 0 }
        ensures tree { IsTree self.now }
    {
        self.nodes[node as usize].parent
    }

    /// The edge from a node's cell to its parent's. None exactly for node 0.
    pub fn edge_to_parent(&self, node: u32) -> Option<Edge>
        requires { node < length self.now.nodes }
        ensures edge { result ≡ parent_edge self.now node }
        ensures some { IsSome result ↔ 0 < node }
        ensures inside { IfSome result (λ e. IsTrue (has_edge self.now.shape e)) }
        ensures tree { IsTree self.now }
    {
        let cell = self.cell(node);
        let parent = self.cell(self.parent(node));
        edge_apart(self.shape, cell.min(parent), cell.abs_diff(parent))
    }

    /// The wire edge from a node's cell to its parent's. None exactly where there is no edge or a
    /// via edge.
    pub fn wire_to_parent(&self, node: u32) -> Option<Edge>
        requires { node < length self.now.nodes }
        ensures edge { result ≡ parent_wire self.now node }
        ensures tree { IsTree self.now }
    {
        let edge = self.edge_to_parent(node)?;
        match edge.way {
            Way::East | Way::North => Some(edge),
            Way::Up => None,
        }
    }

    /// The node with this cell. None exactly where no node has it. It looks at each node in turn.
    pub fn node_at(&self, cell: u32) -> Option<u32>
        ensures node { result ≡ node_with self.now.nodes cell }
        ensures some { IsSome result ↔ IsTrue (holds self.now cell) }
        ensures found { IfSome result (λ node. cell_at self.now.nodes node ≡ Some cell) }
        ensures tree { IsTree self.now }
    {
        let found = position_of(&self.nodes, cell)?;
        Some(found as u32)
    }

    /// Hangs a walk on the tree. The walk leads from cell to neighbouring cell, none twice, to its
    /// last cell, which alone is in the tree; the others are added from the tree outwards. The only
    /// error is want of memory, and leaves the tree as it was.
    pub fn attach(&mut self, walk: &[u32]) -> Result<(), AllocError>
        requires { IsWalkTo self.old walk.now }
        ensures ok { OnOk result (self.new ≡ attached self.old walk.now) }
        ensures err { OnErr result (self.new ≡ self.old) }
        ensures begins { Begins self.old self.new }
        ensures cells { OnOk result (AddsCells self.old walk.now self.new) }
        ensures edges { OnOk result (AddsEdges self.old walk.now self.new) }
        ensures tree { IsTree self.new }
    {
        let parent = self.node_at(walk[walk.len() - 1]).unwrap();
        self.hang(parent, walk)
    }

    /// Hangs a walk on the tree as `attach` does, under the node of its last cell, whose number is
    /// known: no node is looked at. The only error is want of memory, and leaves the tree as it was.
    pub fn hang(&mut self, parent: u32, walk: &[u32]) -> Result<(), AllocError>
        requires walk { IsWalkTo self.old walk.now }
        requires parent { cell_at self.old.nodes parent ≡ slice_get walk.now (length walk.now - 1) }
        ensures ok { OnOk result (self.new ≡ attached self.old walk.now) }
        ensures err { OnErr result (self.new ≡ self.old) }
        ensures begins { Begins self.old self.new }
        ensures cells { OnOk result (AddsCells self.old walk.now self.new) }
        ensures edges { OnOk result (AddsEdges self.old walk.now self.new) }
        ensures tree { IsTree self.new }
    {
        grow(&mut self.nodes, parent, walk)
    }

    /// Gives back the memory that the list of nodes holds beyond its length, where no copy shares it.
    pub fn trim(&mut self)
        ensures same { self.new ≡ self.old }
        ensures tree { IsTree self.new }
    {
        if let Some(own) = Arc::get_mut(&mut self.nodes) {
            own.shrink_to_fit();
        }
    }

    /// Another tree with the same nodes, which both share until one of them grows. The only error is
    /// want of memory.
    pub fn copy(&self, alloc: Global) -> Result<RouteTree, AllocError>
        ensures same { IfOk result (λ t. t ≡ self.now) }
        ensures tree { IsTree self.now }
    {
        Ok(RouteTree {
            shape: self.shape,
            nodes: Arc::try_clone(&self.nodes)?,
        })
    }
}

/// Adds the cells of a walk to the nodes of a tree: to a copy of them, where other trees share them.
/// The only error is want of memory, and leaves the nodes as they were.
fn grow(nodes: &mut Arc<Vec<Node>>, parent: u32, walk: &[u32]) -> Result<(), AllocError>
    requires walk { 0 < length walk.now }
    requires few { length (arc_value nodes.old).items + length walk.now ≤ most_cells + 1 }
    ensures ok { OnOk result (Grows (arc_value nodes.old).items walk.now parent (arc_value nodes.new).items) }
    ensures err { OnErr result ((arc_value nodes.new).items ≡ (arc_value nodes.old).items) }
{
    if let Some(own) = Arc::get_mut(nodes) {
        return push_walk(own, parent, walk);
    }
    let alloc = *nodes.allocator();
    let mut own = Vec::from_slice(alloc, nodes)?;
    push_walk(&mut own, parent, walk)?;
    *nodes = Arc::new(alloc, own)?;
    Ok(())
}

/// Adds the cells of a walk to the nodes of a tree, from the last but one on to the first: each hangs
/// on the next, the last but one on the node `parent`. The only error is want of memory, and leaves
/// the nodes as they were.
fn push_walk(nodes: &mut Vec<Node>, parent: u32, walk: &[u32]) -> Result<(), AllocError>
    requires walk { 0 < length walk.now }
    requires few { length nodes.old.items + length walk.now ≤ most_cells + 1 }
    ensures ok { OnOk result (Grows nodes.old.items walk.now parent nodes.new.items) }
    ensures err { OnErr result (nodes.new.items ≡ nodes.old.items) }
{
    let last = walk.len() - 1;
    let mut parent = parent;
    nodes.reserve(last)?;
    for at in (0..last).rev() {
        let number = nodes.len() as u32;
        nodes.push_reserved(Node {
            cell: walk[at],
            parent,
        });
        parent = number;
    }
    Ok(())
}

/// The number of the first node with this cell.
fn position_of(nodes: &[Node], cell: u32) -> Option<usize>
    ensures { result ≡ position (has_cell cell) nodes.now }
{
    nodes.iter().position(|node| node.cell == cell)
}

/// The edge from a cell to the one whose number is greater by `apart`, where the two are one or
/// neighbours. It takes no division: the numbers are apart by 1 where the edge goes East, by the
/// number of columns where it goes North, and else by the number of tiles.
fn edge_apart(shape: Shape, low: u32, apart: u32) -> Option<Edge>
    ensures { result ≡ apart_edge shape low apart }
{
    let way = if apart == 0 {
        return None;
    } else if apart == 1 && shape.columns() > 1 {
        Way::East
    } else if apart == shape.columns() && shape.rows() > 1 {
        Way::North
    } else {
        Way::Up
    };
    Some(Edge { low, way })
}
