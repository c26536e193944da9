//! Finds and writes entries of the tables, which have a place for each node and span, and compares offers.
ghost use Rattle.std.specs.Prelude.{◌≡◌, ℕ, ◌+◌, ◌*◌, ◌<◌, ◌≤◌, Option, [], length, OnOk, IsSome};
ghost use Rattle.gr_base.specs.Limits.{most_cells};
ghost use Rattle.layer_assign.specs.declared.span.Span.{Span as SpanView};
ghost use Rattle.layer_assign.specs.Spans.{IsWithin, widened, climb, span_number, spans_of};
ghost use Rattle.layer_assign.specs.Choices.{entry};
ghost use Rattle.layer_assign.specs.Tables.{HasRows, better};
ghost use Rattle.layer_assign.specs.Chosen.{Writes};

use crate::span::{Best, Span};
use crate::spans::{span_number, spans_of, widened};
use gr_base::Shape;

/// Where a table has the entry of a node and a span.
pub(crate) fn place_in(shape: Shape, node: u32, span: Option<Span>) -> usize
    requires node { node < most_cells }
    requires within { IsWithin shape.layers span }
    ensures { result ≡ node * spans_of shape.layers + span_number shape.layers span }
{
    node as usize * spans_of(shape) + span_number(shape, span)
}

/// The entry of a table of costs for a node, and a span with one more layer.
pub(crate) fn entry_with(
    shape: Shape,
    costs: &[u64],
    node: u32,
    span: Option<Span>,
    layer: u32,
) -> u64
    requires node { node < most_cells }
    requires span { IsWithin shape.layers span }
    requires layer { layer < shape.layers }
    requires row { node * spans_of shape.layers + spans_of shape.layers ≤ length costs.now }
    ensures { result ≡ entry shape.layers costs.now node (widened span layer) }
{
    costs[place_in(shape, node, widened(span, layer))]
}

/// Of two offers the first, unless the second costs less.
pub(crate) fn better_of(first: Option<Best>, second: Option<Best>) -> Option<Best>
    ensures { result ≡ better first second }
{
    match (first, second) {
        (None, _) => second,
        (Some(_), None) => first,
        (Some(one), Some(two)) => { if two.cost < one.cost { second } else { first } }
    }
}

/// Writes the best layer of a node's edge for a span of its parent's tile, and what the tile costs
/// with it.
pub(crate) fn write_best(
    shape: Shape,
    parent: u32,
    node: u32,
    span: Option<Span>,
    best: Option<Best>,
    least: &mut Vec<u64>,
    choices: &mut Vec<u32>,
)
    requires span { IsWithin shape.layers span }
    requires parent { parent < most_cells }
    requires node { node < most_cells }
    requires row { parent * spans_of shape.layers + spans_of shape.layers ≤ length least.old.items }
    requires own { node * spans_of shape.layers + spans_of shape.layers ≤ length choices.old.items }
    requires some { IsSome best }
    ensures { Writes shape.layers parent node span best
        least.old.items least.new.items choices.old.items choices.new.items }
{
    let best = best.unwrap();
    least[place_in(shape, parent, span)] = best.cost;
    choices[place_in(shape, node, span)] = best.layer;
}
