//! Writes one node's choices into the tables: the best layer for each span of its parent's tile, and what it costs.
ghost use Rattle.std.specs.Prelude.{◌≡◌, ℕ, ◌+◌, ◌*◌, ◌^◌, ◌<◌, ◌≤◌, ◌||◌, ◌==◌, false, not, Option, length, get_or, IsSome};
ghost use Rattle.gr_base.specs.Limits.{most_cells};
ghost use Rattle.gr_base.specs.Trees.{IsTree};
ghost use Rattle.layer_assign.specs.declared.span.Span.{Span as SpanView};
ghost use Rattle.layer_assign.specs.Spans.{IsWithin, widened, climb, growing, spans_of};
ghost use Rattle.layer_assign.specs.Assignments.{IsFlat, parent_of};
ghost use Rattle.layer_assign.specs.Choices.{entry};
ghost use Rattle.layer_assign.specs.Tables.{HasRows, IsSmall, IsLimb, AreWires, priced, offer, best_below};
ghost use Rattle.layer_assign.specs.Chosen.{HasChoice, is_near, holds_pins, may_precede, AreUntouched, Chooses, Writes};

use crate::limbs::{best_layer, limb_of};
use crate::runs::{choose_on_run, is_run};
use crate::span::{Limb, Span, Workings};
use crate::spans::{next_span, span_number, spans_of};
use crate::tables::write_best;
use cost_rules::Costs;
use gr_base::{RouteTree, Shape};

/// Chooses the best layer of one node's edge for each span that its parent's tile may have before,
/// where the layers of later nodes are chosen so already. The parent's tile then costs what the
/// node's edge and limb cost as well. `joined` says which tiles have joined edges of later nodes.
pub(crate) fn choose_layers<C: Costs>(
    costs: &C,
    shape: Shape,
    flat: &RouteTree,
    pins: &[Option<Span>],
    joined: &[bool],
    node: u32,
    least: &mut Vec<u64>,
    choices: &mut Vec<u32>,
    workings: &mut Workings,
)
    requires grid { C.grid costs.now ≡ shape }
    requires flat { IsFlat shape flat.now.shape }
    requires node { HasChoice shape (C.ways costs.now) flat.now node }
    requires pins { length pins.now ≡ length flat.now.nodes }
    requires within { (u : ℕ) → u < length flat.now.nodes → IsWithin shape.layers (growing pins.now u) }
    requires joined { length joined.now ≡ length flat.now.nodes }
    requires untouched { AreUntouched shape.layers joined.now least.old.items }
    requires costs { HasRows shape.layers (length flat.now.nodes) least.old.items }
    requires choices { HasRows shape.layers (length flat.now.nodes) choices.old.items }
    requires own { IsSmall shape.layers least.old.items node }
    requires parent { IsSmall shape.layers least.old.items (parent_of flat.now node) }
    ensures { Chooses shape (C.ways costs.now) (C.price costs.now) flat.now node
        (growing pins.now node) (growing pins.now (parent_of flat.now node))
        least.old.items least.new.items choices.old.items choices.new.items }
{
    let parent = flat.parent(node);
    let base = pins[node as usize];
    let above = pins[parent as usize];
    if is_run(parent, node, above, joined[parent as usize]) {
        choose_on_run(costs, shape, flat, base, node, least, choices, workings);
        return;
    }
    choose_by_span(
        costs, shape, flat, base, above, node, least, choices, workings,
    );
}

/// Chooses the best layer of one node's edge for each span that its parent's tile may have before,
/// whatever edges this tile has.
///
/// Spans go from narrow to wide, since a span's cost is read where it is as wide or wider. Those
/// before that of the pins don't hold it.
fn choose_by_span<C: Costs>(
    costs: &C,
    shape: Shape,
    flat: &RouteTree,
    base: Option<Span>,
    above: Option<Span>,
    node: u32,
    least: &mut Vec<u64>,
    choices: &mut Vec<u32>,
    workings: &mut Workings,
)
    requires grid { C.grid costs.now ≡ shape }
    requires flat { IsFlat shape flat.now.shape }
    requires node { HasChoice shape (C.ways costs.now) flat.now node }
    requires base { IsWithin shape.layers base }
    requires above { IsWithin shape.layers above }
    requires costs { HasRows shape.layers (length flat.now.nodes) least.old.items }
    requires choices { HasRows shape.layers (length flat.now.nodes) choices.old.items }
    requires own { IsSmall shape.layers least.old.items node }
    requires parent { IsSmall shape.layers least.old.items (parent_of flat.now node) }
    ensures { Chooses shape (C.ways costs.now) (C.price costs.now) flat.now node base above
        least.old.items least.new.items choices.old.items choices.new.items }
{
    limb_of(costs, shape, flat, least, node, base, &mut workings.limb);
    let mut wires = [None; 16];
    let parent = flat.parent(node);
    let mut next = above;
    for _ in span_number(shape, above)..spans_of(shape) {
        let span = next;
        next = next_span(shape, span);
        if !may_precede(parent, node, above, span) {
            continue;
        }
        choose_layer(
            costs,
            shape,
            &workings.limb,
            &mut wires,
            parent,
            node,
            span,
            least,
            choices,
        );
    }
}

/// Whether a tile may have a span before the edge of a node: it holds the pins' layers, and before
/// the edge of the next node it is that of the pins and the tile's own edge alone.
fn may_precede(parent: u32, node: u32, pins: Option<Span>, span: Option<Span>) -> bool
    requires { parent < most_cells }
    ensures { result ≡ may_precede parent node pins span }
{
    holds_pins(pins, span) && (parent + 1 != node || is_near(parent, pins, span))
}

/// Whether a span holds the layers of a tile's pins.
fn holds_pins(pins: Option<Span>, span: Option<Span>) -> bool
    ensures { result ≡ holds_pins pins span }
{
    match (pins, span) {
        (None, _) => true,
        (Some(_), None) => false,
        (Some(pins), Some(span)) => span.low <= pins.low && pins.high <= span.high,
    }
}

/// Whether a span may be that of a tile's pins and its own edge. Node 0 has no edge.
fn is_near(parent: u32, pins: Option<Span>, span: Option<Span>) -> bool
    ensures { result ≡ is_near parent pins span }
{
    match (pins, span) {
        (None, None) => parent == 0,
        (None, Some(span)) => parent != 0 && span.low == span.high,
        (Some(_), None) => false,
        (Some(pins), Some(span)) if parent == 0 => span.low == pins.low && span.high == pins.high,
        (Some(pins), Some(span)) => span.low == pins.low || span.high == pins.high,
    }
}

/// Chooses the best layer of a node's edge for one span that its parent's tile may have before, and
/// adds what that costs to the parent's tile.
fn choose_layer<C: Costs>(
    costs: &C,
    shape: Shape,
    limb: &Limb,
    wires: &mut [Option<u64>; 16],
    parent: u32,
    node: u32,
    span: Option<Span>,
    least: &mut Vec<u64>,
    choices: &mut Vec<u32>,
)
    requires grid { C.grid costs.now ≡ shape }
    requires limb { IsLimb shape (C.price costs.now) limb.now }
    requires wires { AreWires shape (C.price costs.now) limb.now.edge wires.old }
    requires span { IsWithin shape.layers span }
    requires parent { parent < most_cells }
    requires node { node < most_cells }
    requires row { parent * spans_of shape.layers + spans_of shape.layers ≤ length least.old.items }
    requires own { node * spans_of shape.layers + spans_of shape.layers ≤ length choices.old.items }
    requires small { (other : ℕ) → other < shape.layers →
        entry shape.layers least.old.items parent (widened span other) ≤ 2 ^ 50 }
    requires some { IsSome (best_below
        (offer shape (priced shape (C.price costs.now) limb.now) least.old.items parent span) shape.layers) }
    ensures wires { AreWires shape (C.price costs.now) limb.now.edge wires.new }
    ensures writes { Writes shape.layers parent node span
        (best_below (offer shape (priced shape (C.price costs.now) limb.now) least.old.items parent span) shape.layers)
        least.old.items least.new.items choices.old.items choices.new.items }
{
    let best = best_layer(costs, shape, limb, wires, least, parent, span);
    write_best(shape, parent, node, span, best, least, choices);
}
