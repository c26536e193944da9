//! Where the cells of a tree stand among its nodes.
ghost use Rattle.std.specs.Prelude.{◌≡◌, ◌<◌, ◌≤◌, ◌↔◌, length, take, IfOk, IsSome, IsTrue};
ghost use Rattle.gr_base.specs.Grid.{cells_of};
ghost use Rattle.gr_base.specs.NodeIndexes.{Indexes};
ghost use Rattle.gr_base.specs.Trees.{node_with, holds};

use crate::tree::RouteTree;
use std::alloc::{AllocError, Global};
use std::marker::Model;

/// An index of a tree's nodes by their cells. It serves tree after tree and is never emptied: what
/// it says of a cell is checked against the tree.
///
/// After Briggs and Torczon, "An efficient representation for sparse sets", 1993.
#[derive(Debug, Drop)]
pub struct NodeIndex {
    nodes: Vec<u32>,
}

impl NodeIndex {
    /// An index for trees of a grid of so many cells. The only error is want of memory.
    pub fn new(alloc: Global, cells: u32) -> Result<NodeIndex, AllocError>
        ensures { IfOk result (λ index. length index ≡ cells) }
    {
        Ok(NodeIndex {
            nodes: vec![in alloc; 0; cells as usize]?,
        })
    }

    /// The node of an indexed tree with this cell. None exactly where no node has it.
    pub fn node_at(&self, tree: &RouteTree, cell: u32) -> Option<u32>
        requires cell { cell < length self.now }
        requires index { Indexes self.now tree.now.nodes }
        ensures node { result ≡ node_with tree.now.nodes cell }
        ensures some { IsSome result ↔ IsTrue (holds tree.now cell) }
    {
        let node = self.nodes[cell as usize];
        if node >= tree.len() {
            return None;
        }
        if tree.cell(node) != cell {
            return None;
        }
        Some(node)
    }

    /// Takes the nodes of a tree from the number `from` on in, where those before it are indexed.
    pub fn extend(&mut self, tree: &RouteTree, from: u32)
        requires cells { cells_of tree.now.shape ≤ length self.old }
        requires before { Indexes self.old (take from tree.now.nodes) }
        ensures index { Indexes self.new tree.now.nodes }
        ensures cells { length self.new ≡ length self.old }
    {
        for node in from..tree.len() {
            self.nodes[tree.cell(node) as usize] = node;
        }
    }
}

impl Model for NodeIndex {
    ghost use Rattle.std.specs.Prelude.{ℕ, List};

    ghost Value = { List ℕ };

    ghost view = { λ index. index.nodes.items };
}
