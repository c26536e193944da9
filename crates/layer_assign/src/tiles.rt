//! Gathers the span of each node's tile from pins and layers, and by such spans reads layers off the choices.
ghost use Rattle.std.specs.Prelude.{◌≡◌, ℕ, ◌+◌, ◌<◌, ◌≤◌, ◌*◌, length, Option, Some, slice_index, All, IfOk, OnOk, IsSome, IsTrue, if◌then◌else◌};
ghost use Rattle.gr_base.specs.Grid.{cells_of};
ghost use Rattle.gr_base.specs.Limits.{most_cells};
ghost use Rattle.gr_base.specs.NodeIndexes.{Indexes};
ghost use Rattle.gr_base.specs.Trees.{IsTree, holds};
ghost use Rattle.layer_assign.specs.declared.span.Span.{Span as SpanView};
ghost use Rattle.layer_assign.specs.Spans.{widened, growing, span_of, span_in, span_by, IsWithin, spans_of};
ghost use Rattle.layer_assign.specs.Assignments.{tile_count, tile_of, level_of, tile_at, parent_of, ends_at, pin_layers, met, ArePins};
ghost use Rattle.layer_assign.specs.Raised.{AreLayers};
ghost use Rattle.layer_assign.specs.Choices.{entry, FollowsFrom};
ghost use Rattle.layer_assign.specs.Tables.{HasRows};

use crate::layers::Layers;
use crate::span::Span;
use crate::spans::widened;
use crate::tables::place_in;
use gr_base::{NodeIndex, RouteTree, Shape, refill};
use std::alloc::{AllocError, Global};

/// The span of the pins of each node's tile.
pub(crate) fn pin_spans(
    shape: Shape,
    flat: &RouteTree,
    pins: &[u32],
    index: &NodeIndex,
    spans: &mut Vec<Option<Span>>,
) -> Result<(), AllocError>
    requires pins { ArePins shape flat.now pins.now }
    requires index { Indexes index.now flat.now.nodes }
    requires tiles { tile_count shape ≤ length index.now }
    ensures count { OnOk result (length spans.new.items ≡ length flat.now.nodes) }
    ensures spans { OnOk result ((node : ℕ) → node < length flat.now.nodes →
        growing spans.new.items node ≡ span_of (pin_layers shape pins.now (tile_at flat.now node))) }
    ensures tree { IsTree flat.now }
{
    let tiles = shape.columns() * shape.rows();
    refill(spans, None, flat.len() as usize)?;
    for pin in pins {
        let node = index.node_at(flat, *pin % tiles).unwrap() as usize;
        spans[node] = widened(spans[node], *pin / tiles);
    }
    Ok(())
}

/// The tiles of a node and its parent with the layer of the node's edge.
pub(crate) fn grow_spans(spans: &mut Vec<Option<Span>>, flat: &RouteTree, node: u32, layer: u32)
    requires later { 0 < node }
    requires node { node < length flat.now.nodes }
    requires count { length spans.old.items ≡ length flat.now.nodes }
    ensures count { length spans.new.items ≡ length flat.now.nodes }
    ensures spans { (other : ℕ) → other < length flat.now.nodes → growing spans.new.items other ≡
        (if ends_at flat.now other node then widened (growing spans.old.items other) layer
        else growing spans.old.items other) }
{
    let parent = flat.parent(node) as usize;
    spans[parent] = widened(spans[parent], layer);
    spans[node as usize] = widened(spans[node as usize], layer);
}

/// The choice for a node and a span.
fn choice_at(shape: Shape, choices: &[u32], node: u32, span: Option<Span>) -> u32
    requires node { node < most_cells }
    requires span { IsWithin shape.layers span }
    requires row { node * spans_of shape.layers + spans_of shape.layers ≤ length choices.now }
    ensures { result ≡ entry shape.layers choices.now node span }
{
    choices[place_in(shape, node, span)]
}

/// The layers that choices lead to: each node's for the span that its parent's tile has before.
pub(crate) fn follow(
    alloc: Global,
    shape: Shape,
    flat: &RouteTree,
    spans: &mut Vec<Option<Span>>,
    choices: &[u32],
) -> Result<Vec<u32>, AllocError>
    requires count { length spans.old.items ≡ length flat.now.nodes }
    requires within { (node : ℕ) → node < length flat.now.nodes → IsWithin shape.layers (growing spans.old.items node) }
    requires rows { HasRows shape.layers (length flat.now.nodes) choices.now }
    requires below { (node : ℕ) → (s : Option SpanView) → 0 < node → node < length flat.now.nodes →
        IsWithin shape.layers s →
        entry shape.layers choices.now node s < shape.layers }
    ensures count { IfOk result (λ layers. length layers.items ≡ length flat.now.nodes) }
    ensures follows { IfOk result (λ layers. FollowsFrom flat.now (growing spans.old.items)
        (entry shape.layers choices.now)
        (λ node. slice_index layers.items node)) }
{
    let mut layers = Vec::with_capacity(alloc, flat.len() as usize)?;
    layers.push(0)?;
    for node in 1..flat.len() {
        let span = spans[flat.parent(node) as usize];
        let layer = choice_at(shape, choices, node, span);
        grow_spans(spans, flat, node, layer);
        layers.push(layer)?;
    }
    Ok(layers)
}

/// The span of the layers that meet in each node's tile. `spans` is for those that grow so far.
pub(crate) fn met_spans(
    shape: Shape,
    flat: &RouteTree,
    layers: &Layers,
    pins: &[u32],
    index: &NodeIndex,
    spans: &mut Vec<Option<Span>>,
    whole: &mut Vec<Span>,
) -> Result<(), AllocError>
    requires pins { ArePins shape flat.now pins.now }
    requires layers { AreLayers shape flat.now layers.now }
    requires index { Indexes index.now flat.now.nodes }
    requires tiles { tile_count shape ≤ length index.now }
    ensures count { OnOk result (length whole.new.items ≡ length flat.now.nodes) }
    ensures spans { OnOk result ((node : ℕ) → node < length flat.now.nodes →
        Some (span_in whole.new.items node) ≡ span_of (met shape flat.now pins.now
        (λ other. slice_index layers.now other) node)) }
    ensures tree { IsTree flat.now }
{
    pin_spans(shape, flat, pins, index, spans)?;
    for node in 1..flat.len() {
        grow_spans(spans, flat, node, layers.layer(node));
    }
    whole_spans(spans, whole)
}

/// The spans of tiles that all have one.
fn whole_spans(spans: &[Option<Span>], whole: &mut Vec<Span>) -> Result<(), AllocError>
    requires { (node : ℕ) → node < length spans.now → IsSome (growing spans.now node) }
    ensures count { OnOk result (length whole.new.items ≡ length spans.now) }
    ensures spans { OnOk result ((node : ℕ) → node < length spans.now →
        Some (span_in whole.new.items node) ≡ growing spans.now node) }
{
    whole.clear();
    for span in spans {
        whole.push(span.unwrap())?;
    }
    Ok(())
}
