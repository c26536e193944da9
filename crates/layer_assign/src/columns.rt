//! Adds cells to a tree that grows: one on a neighbour, or those of a tile above and below one of its cells.
ghost use Rattle.std.specs.Prelude.{◌≡◌, ◌≢◌, ◌∷◌, [], ℕ, ◌+◌, ◌-◌, ◌*◌, ◌<◌, ◌≤◌, false, ◌&&◌, ◌||◌, ◌==◌, Some, length, OnOk, IsTrue};
ghost use Rattle.gr_base.specs.Grid.{cells_of, AreNeighbours};
ghost use Rattle.gr_base.specs.EdgeSets.{is_way, set_of};
ghost use Rattle.gr_base.specs.Trees.{cell_at, holds, walk_edges, IsTree};
ghost use Rattle.gr_base.specs.declared.grid.Way.TheVariants.{Up};
ghost use Rattle.layer_assign.specs.Assignments.{tile_count, cell_on};
ghost use Rattle.layer_assign.specs.Raised.{in_column, is_via_of, Grows};
ghost use Rattle.layer_assign.specs.Raising.{IsEarly};
ghost use Rattle.layer_assign.specs.NodeOrder.{hung_on, rising, sinking, spreading};

use crate::span::Span;
use gr_base::{RouteTree, Shape};
use std::alloc::AllocError;

/// Hangs one cell on a neighbour among the first `end` nodes of the tree.
pub(crate) fn hang(tree: &mut RouteTree, end: u32, cell: u32, on: u32) -> Result<(), AllocError>
    requires inside { cell < cells_of tree.old.shape }
    requires outside { holds tree.old cell ≡ false }
    requires end { end ≤ length tree.old.nodes }
    requires on { IsEarly tree.old end on }
    requires near { AreNeighbours tree.old.shape cell on }
    ensures grows { OnOk result (Grows tree.old tree.new (λ other. cell == other)
        (set_of (walk_edges tree.old.shape (cell ∷ on ∷ [])))) }
    ensures nodes { OnOk result (tree.new ≡ hung_on tree.old cell on) }
{
    let parent = last_node_at(tree, end, on);
    tree.hang(parent, &[cell, on])
}

/// The node of a cell among the first `end` nodes of a tree. It looks at these from the last one
/// back: a cell is hung on one of its tile or of the tile before, of which that is the last node.
fn last_node_at(tree: &RouteTree, end: u32, cell: u32) -> u32
    requires end { end ≤ length tree.now.nodes }
    requires early { IsEarly tree.now end cell }
    ensures cell { cell_at tree.now.nodes result ≡ Some cell }
    ensures tree { IsTree tree.now }
{
    let mut node = end - 1;
    while tree.cell(node) != cell {
        node -= 1;
    }
    node
}

/// The cell of a tile on a layer.
pub(crate) fn cell_at_level(shape: Shape, tile: u32, layer: u32) -> u32
    requires tile { tile < tile_count shape }
    requires layer { layer < shape.layers }
    ensures cell { result ≡ cell_on shape tile layer }
    ensures inside { result < cells_of shape }
{
    layer * (shape.columns() * shape.rows()) + tile
}

/// Hangs the cells of a tile above one of its cells on that, up to a layer.
pub(crate) fn rise(tree: &mut RouteTree, tile: u32, from: u32, to: u32) -> Result<(), AllocError>
    requires tile { tile < tile_count tree.old.shape }
    requires layers { to < tree.old.shape.layers }
    requires up { from ≤ to }
    requires on { IsTrue (holds tree.old (cell_on tree.old.shape tile from)) }
    requires free { (layer : ℕ) → from < layer → layer ≤ to →
        holds tree.old (cell_on tree.old.shape tile layer) ≡ false }
    ensures grows { OnOk result (Grows tree.old tree.new
        (in_column tree.old.shape tile (from + 1) (to + 1))
        (λ e. is_way e.way Up && in_column tree.old.shape tile from to e.low)) }
    ensures nodes { OnOk result (tree.new ≡ rising tree.old.shape tile from (to - from) tree.old) }
{
    let shape = tree.shape();
    for layer in from..to {
        let end = tree.len();
        hang(
            tree,
            end,
            cell_at_level(shape, tile, layer + 1),
            cell_at_level(shape, tile, layer),
        )?;
    }
    Ok(())
}

/// Hangs the cells of a tile below one of its cells on that, down to a layer.
pub(crate) fn sink(tree: &mut RouteTree, tile: u32, from: u32, to: u32) -> Result<(), AllocError>
    requires tile { tile < tile_count tree.old.shape }
    requires layers { from < tree.old.shape.layers }
    requires down { to ≤ from }
    requires on { IsTrue (holds tree.old (cell_on tree.old.shape tile from)) }
    requires free { (layer : ℕ) → to ≤ layer → layer < from →
        holds tree.old (cell_on tree.old.shape tile layer) ≡ false }
    ensures grows { OnOk result (Grows tree.old tree.new
        (in_column tree.old.shape tile to from) (λ e. is_way e.way Up && in_column tree.old.shape tile to from e.low)) }
    ensures nodes { OnOk result (tree.new ≡ sinking tree.old.shape tile to (from - to) tree.old) }
{
    let shape = tree.shape();
    for layer in (to..from).rev() {
        let end = tree.len();
        hang(
            tree,
            end,
            cell_at_level(shape, tile, layer),
            cell_at_level(shape, tile, layer + 1),
        )?;
    }
    Ok(())
}

/// Hangs the other cells of a tile's span on one of its cells.
pub(crate) fn spread(
    tree: &mut RouteTree,
    tile: u32,
    layer: u32,
    span: Span,
) -> Result<(), AllocError>
    requires tile { tile < tile_count tree.old.shape }
    requires high { span.high < tree.old.shape.layers }
    requires above { span.low ≤ layer }
    requires below { layer ≤ span.high }
    requires on { IsTrue (holds tree.old (cell_on tree.old.shape tile layer)) }
    requires free { (other : ℕ) → other ≢ layer → other < tree.old.shape.layers →
        holds tree.old (cell_on tree.old.shape tile other) ≡ false }
    ensures grows { OnOk result (Grows tree.old tree.new
        (in_column tree.old.shape tile span.low (span.high + 1)) (is_via_of tree.old.shape tile span)) }
    ensures nodes { OnOk result (tree.new ≡ spreading tree.old.shape tile layer span tree.old) }
{
    rise(tree, tile, layer, span.high)?;
    sink(tree, tile, layer, span.low)
}
