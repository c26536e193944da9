//! Raises a flat tree to the grid by the layers of its edges, tile after tile; it asks for no costs.
ghost use Rattle.std.specs.Prelude.{◌≡◌, ◌≢◌, ◌∷◌, [], ℕ, ◌+◌, ◌-◌, ◌<◌, ◌≤◌, true, false, ◌||◌, length, Some, slice_get, slice_index, slice_set, sum_by, All, IfOk, OnOk, IsTrue};
ghost use Rattle.gr_base.specs.Grid.{cells_of, AreNeighbours};
ghost use Rattle.gr_base.specs.EdgeSets.{set_of};
ghost use Rattle.gr_base.specs.Limits.{most_cells, most_layers};
ghost use Rattle.gr_base.specs.NodeIndexes.{Indexes};
ghost use Rattle.gr_base.specs.Trees.{holds, node_with, cell_at, edges_of, walk_edges, IsTree};
ghost use Rattle.gr_base.specs.declared.grid.Edge.{Edge as EdgeView};
ghost use Rattle.layer_assign.specs.Spans.{IsWithin, IsSpan, span_in};
ghost use Rattle.layer_assign.specs.Assignments.{IsFlat, tile_count, cell_on, tile_of, level_of, tile_at, parent_of, ArePins};
ghost use Rattle.layer_assign.specs.Raised.{in_column, is_via_of, is_wire_of, Grows, AreLayers, raised_edges};
ghost use Rattle.layer_assign.specs.NodeOrder.{planted, entering, visiting, climbing, filling, raised_from, raised_tree};
ghost use Rattle.layer_assign.specs.Raising.{is_done, end_of, IsEarly, AreEnds, IsFree, IsIn, HoldEdges, Links, IsRaised, IsColumn};

use crate::columns::{cell_at_level, hang, spread};
use crate::layers::Layers;
use crate::room::LayerRoom;
use crate::span::Span;
use crate::tiles::met_spans;
use gr_base::{NodeIndex, RouteTree, Shape, refill};
use std::alloc::{AllocError, Global};

/// The tree that an assignment makes on the grid.
///
/// It starts at the first pin's cell. Its edges are the wire edges on the layers of their nodes and,
/// in each tile, the via edges between the least and the greatest of the layers that meet there:
/// those of the tile's edges and of its pins. So it holds each pin's cell. The only error is want of
/// memory.
///
/// The flat tree has the grid's columns and rows and one layer, and each of its edges has a layer of the
/// grid. There is at least one pin; each is a cell of the grid whose tile the flat tree holds. The room is
/// for at least as many tiles as the grid has.
///
/// The tile of the first pin is added first, then the tiles of its node's ancestors up to node 0,
/// and then the others by their nodes. A tile is added from the cell that its edge leads to.
pub fn raise(
    alloc: Global,
    shape: Shape,
    flat: &RouteTree,
    layers: &Layers,
    pins: &[u32],
    room: &mut LayerRoom,
) -> Result<RouteTree, AllocError>
    requires flat { IsFlat shape flat.now.shape }
    requires pins { ArePins shape flat.now pins.now }
    requires layers { AreLayers shape flat.now layers.now }
    requires room { tile_count shape ≤ room.old }
    ensures tree { IfOk result IsTree }
    ensures shape { IfOk result (λ tree. tree.shape ≡ shape) }
    ensures driver { IfOk result (λ tree. cell_at tree.nodes 0 ≡ slice_get pins.now 0) }
    ensures pins { IfOk result (λ tree. All (λ pin. IsTrue (holds tree pin)) pins.now) }
    ensures edges { IfOk result (λ tree. (e : EdgeView) →
        edges_of tree e ≡ raised_edges shape flat.now pins.now (λ node. slice_index layers.now node) e) }
    ensures nodes { IfOk result (λ tree.
        tree ≡ raised_tree shape flat.now pins.now (λ node. slice_index layers.now node)) }
    ensures room { room.new ≡ room.old }
{
    room.index.extend(flat, 0);
    met_spans(
        shape,
        flat,
        layers,
        pins,
        &room.index,
        &mut room.spans,
        &mut room.whole,
    )?;
    raise_from(
        alloc,
        shape,
        flat,
        layers,
        &room.index,
        &room.whole,
        pins[0],
        &mut room.ends,
    )
}

/// The tree by the spans of the tiles, from a cell of one of them.
fn raise_from(
    alloc: Global,
    shape: Shape,
    flat: &RouteTree,
    layers: &Layers,
    index: &NodeIndex,
    spans: &[Span],
    cell: u32,
    ends: &mut Vec<u32>,
) -> Result<RouteTree, AllocError>
    requires index { Indexes index.now flat.now.nodes }
    requires tiles { tile_count shape ≤ length index.now }
    requires flat { IsFlat shape flat.now.shape }
    requires layers { AreLayers shape flat.now layers.now }
    requires count { length spans.now ≡ length flat.now.nodes }
    requires spans { HoldEdges shape flat.now (λ node. slice_index layers.now node) (span_in spans.now) }
    requires cell { cell < cells_of shape }
    requires tile { IsTrue (holds flat.now (tile_of shape cell)) }
    requires span { (node : ℕ) → node_with flat.now.nodes (tile_of shape cell) ≡ Some node →
        IsIn (span_in spans.now node) (level_of shape cell) }
    ensures tree { IfOk result IsTree }
    ensures raised { IfOk result (λ tree. IsRaised shape flat.now (λ node. slice_index layers.now node)
        (span_in spans.now)
        (Some cell) (λ _. true) 0 tree) }
    ensures nodes { IfOk result (λ tree. tree ≡ raised_from shape flat.now (λ node. slice_index layers.now node)
        (span_in spans.now) cell) }
{
    let tile = cell % (shape.columns() * shape.rows());
    let start = index.node_at(flat, tile).unwrap();
    refill(ends, 0, flat.len() as usize)?;
    let room = cells_in(spans);
    let mut tree = plant(alloc, shape, cell, span_of_node(spans, start), room)?;
    ends[start as usize] = tree.len();
    raise_ancestors(&mut tree, ends, flat, layers, spans, start)?;
    raise_others(&mut tree, ends, flat, layers, spans)?;
    Ok(tree)
}

/// How many cells there are in tiles of these spans.
fn cells_in(spans: &[Span]) -> usize
    requires few { length spans.now ≤ most_cells }
    requires spans { (node : ℕ) → node < length spans.now → IsSpan most_layers (span_in spans.now node) }
    ensures { result ≡ sum_by (λ span. span.high + 1 - span.low) spans.now }
{
    let mut cells = 0;
    for span in spans {
        cells += (span.high + 1 - span.low) as usize;
    }
    cells
}

/// A tree of the cells of a span in a cell's tile, from the cell on, with room for so many nodes.
fn plant(
    alloc: Global,
    shape: Shape,
    cell: u32,
    span: Span,
    room: usize,
) -> Result<RouteTree, AllocError>
    requires cell { cell < cells_of shape }
    requires span { IsIn span (level_of shape cell) }
    requires high { span.high < shape.layers }
    ensures column { IfOk result (IsColumn shape cell span) }
    ensures nodes { IfOk result (λ tree. tree ≡ planted shape cell span) }
{
    let tiles = shape.columns() * shape.rows();
    let mut tree = RouteTree::start_with_room(alloc, shape, cell, room)?;
    spread(&mut tree, cell % tiles, cell / tiles, span)?;
    Ok(tree)
}

/// Adds a tile to the tree, with the wire edge on a layer that leads to it from another tile, whose
/// cells are among the first `end` nodes.
fn enter_tile(
    tree: &mut RouteTree,
    end: u32,
    from: u32,
    tile: u32,
    layer: u32,
    span: Span,
) -> Result<(), AllocError>
    requires from { from < tile_count tree.old.shape }
    requires tile { tile < tile_count tree.old.shape }
    requires layer { IsIn span layer }
    requires high { span.high < tree.old.shape.layers }
    requires near { AreNeighbours tree.old.shape (cell_on tree.old.shape tile layer)
        (cell_on tree.old.shape from layer) }
    requires end { end ≤ length tree.old.nodes }
    requires on { IsEarly tree.old end (cell_on tree.old.shape from layer) }
    requires free { IsFree tree.old tile }
    ensures grows { OnOk result (Grows tree.old tree.new (in_column tree.old.shape tile span.low (span.high + 1))
        (λ e. set_of (walk_edges tree.old.shape
        (cell_on tree.old.shape tile layer ∷ cell_on tree.old.shape from layer ∷ [])) e
        || is_via_of tree.old.shape tile span e)) }
    ensures nodes { OnOk result (tree.new ≡ entering tree.old.shape from tile layer span tree.old) }
{
    let shape = tree.shape();
    hang(
        tree,
        end,
        cell_at_level(shape, tile, layer),
        cell_at_level(shape, from, layer),
    )?;
    spread(tree, tile, layer, span)
}

/// The span of a node's tile.
fn span_of_node(spans: &[Span], node: u32) -> Span
    requires { node < length spans.now }
    ensures { result ≡ span_in spans.now node }
{
    spans[node as usize]
}

/// Adds the tile of a node, from the node at the other end of an edge, which is named by its node.
fn visit(
    tree: &mut RouteTree,
    ends: &mut Vec<u32>,
    flat: &RouteTree,
    layers: &Layers,
    spans: &[Span],
    edge: u32,
    from: u32,
    to: u32,
) -> Result<(), AllocError>
    requires flat { IsFlat tree.old.shape flat.now.shape }
    requires layers { AreLayers tree.old.shape flat.now layers.now }
    requires count { length spans.now ≡ length flat.now.nodes }
    requires spans { HoldEdges tree.old.shape flat.now (λ node. slice_index layers.now node) (span_in spans.now) }
    requires later { 0 < edge }
    requires edge { edge < length flat.now.nodes }
    requires from { from < length flat.now.nodes }
    requires to { to < length flat.now.nodes }
    requires links { Links flat.now edge from to }
    requires marks { length ends.old.items ≡ length flat.now.nodes }
    requires end { end_of ends.old.items from ≤ length tree.old.nodes }
    requires on { IsEarly tree.old (end_of ends.old.items from) (cell_on tree.old.shape (tile_at flat.now from)
        (slice_index layers.now edge)) }
    requires free { IsFree tree.old (tile_at flat.now to) }
    ensures grows { OnOk result (Grows tree.old tree.new
        (in_column tree.old.shape (tile_at flat.now to) (span_in spans.now to).low ((span_in spans.now to).high + 1))
        (λ e. is_wire_of tree.old.shape flat.now (λ node. slice_index layers.now node) edge e
        || is_via_of tree.old.shape (tile_at flat.now to) (span_in spans.now to) e)) }
    ensures nodes { OnOk result (tree.new ≡ visiting tree.old.shape flat.now (λ node. slice_index layers.now node)
        (span_in spans.now) edge from to tree.old) }
    ensures ends { OnOk result (ends.new.items ≡ slice_set ends.old.items to (length tree.new.nodes)) }
{
    enter_tile(
        tree,
        ends[from as usize],
        flat.cell(from),
        flat.cell(to),
        layers.layer(edge),
        span_of_node(spans, to),
    )?;
    ends[to as usize] = tree.len();
    Ok(())
}

/// Adds the tiles of a node's ancestors, where its tile alone is in the tree.
fn raise_ancestors(
    tree: &mut RouteTree,
    ends: &mut Vec<u32>,
    flat: &RouteTree,
    layers: &Layers,
    spans: &[Span],
    start: u32,
) -> Result<(), AllocError>
    requires flat { IsFlat tree.old.shape flat.now.shape }
    requires layers { AreLayers tree.old.shape flat.now layers.now }
    requires count { length spans.now ≡ length flat.now.nodes }
    requires spans { HoldEdges tree.old.shape flat.now (λ node. slice_index layers.now node) (span_in spans.now) }
    requires start { start < length flat.now.nodes }
    requires marks { length ends.old.items ≡ length flat.now.nodes }
    requires first { is_done ends.old.items start ≡ true }
    requires only { (node : ℕ) → is_done ends.old.items node ≡ true → start ≤ node }
    requires raised { IsRaised tree.old.shape flat.now (λ node. slice_index layers.now node) (span_in spans.now)
        (cell_at tree.old.nodes 0) (is_done ends.old.items) start tree.old }
    requires ends { AreEnds tree.old.shape flat.now (span_in spans.now) ends.old.items tree.old }
    ensures marks { OnOk result (length ends.new.items ≡ length flat.now.nodes) }
    ensures root { OnOk result (is_done ends.new.items 0 ≡ true) }
    ensures raised { OnOk result (IsRaised tree.old.shape flat.now (λ node. slice_index layers.now node)
        (span_in spans.now)
        (cell_at tree.old.nodes 0) (is_done ends.new.items) 0 tree.new) }
    ensures nodes { OnOk result (tree.new ≡ climbing tree.old.shape flat.now (λ node. slice_index layers.now node)
        (span_in spans.now) start start tree.old) }
    ensures ends { OnOk result (AreEnds tree.old.shape flat.now (span_in spans.now) ends.new.items tree.new) }
{
    let mut node = start;
    while node != 0 {
        let parent = flat.parent(node);
        visit(tree, ends, flat, layers, spans, node, node, parent)?;
        node = parent;
    }
    Ok(())
}

/// Adds the tiles that aren't in the tree, where node 0's is and each tile's ancestors are with it.
fn raise_others(
    tree: &mut RouteTree,
    ends: &mut Vec<u32>,
    flat: &RouteTree,
    layers: &Layers,
    spans: &[Span],
) -> Result<(), AllocError>
    requires flat { IsFlat tree.old.shape flat.now.shape }
    requires layers { AreLayers tree.old.shape flat.now layers.now }
    requires count { length spans.now ≡ length flat.now.nodes }
    requires spans { HoldEdges tree.old.shape flat.now (λ node. slice_index layers.now node) (span_in spans.now) }
    requires marks { length ends.old.items ≡ length flat.now.nodes }
    requires root { is_done ends.old.items 0 ≡ true }
    requires raised { IsRaised tree.old.shape flat.now (λ node. slice_index layers.now node) (span_in spans.now)
        (cell_at tree.old.nodes 0) (is_done ends.old.items) 0 tree.old }
    requires ends { AreEnds tree.old.shape flat.now (span_in spans.now) ends.old.items tree.old }
    ensures raised { OnOk result (IsRaised tree.old.shape flat.now (λ node. slice_index layers.now node)
        (span_in spans.now) (cell_at tree.old.nodes 0) (λ _. true) 0 tree.new) }
    ensures nodes { OnOk result (tree.new ≡ filling tree.old.shape flat.now (λ node. slice_index layers.now node)
        (span_in spans.now) (length flat.now.nodes - 1) 1 tree.old) }
{
    for node in 1..flat.len() {
        if ends[node as usize] > 0 {
            continue;
        }
        let parent = flat.parent(node);
        visit(tree, ends, flat, layers, spans, node, parent, node)?;
    }
    Ok(())
}
