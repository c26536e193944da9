//! Lists the edges of a net's tree, in room that the next net uses anew.
ghost use Rattle.std.specs.Prelude.{◌≡◌, OnOk};
ghost use Rattle.gr_base.specs.Trees.{HasGridEdges, tree_edges};

use gr_base::{Edge, RouteTree};
use std::alloc::AllocError;

/// Replaces the list by the edges of a tree, in the order of its nodes.
pub fn gather_edges(edges: &mut Vec<Edge>, tree: &RouteTree) -> Result<(), AllocError>
    ensures edges { OnOk result (edges.new.items ≡ tree_edges tree.now) }
    ensures grid { HasGridEdges tree.now }
{
    edges.clear();
    for node in 0..tree.len() {
        let Some(edge) = tree.edge_to_parent(node) else {
            continue;
        };
        edges.push(edge)?;
    }
    Ok(())
}
