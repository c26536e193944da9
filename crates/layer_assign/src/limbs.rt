//! Prices the limbs of nodes layer by layer; no edge is priced where even 1 would make its layer no better.
ghost use Rattle.std.specs.Prelude.{◌≡◌, ℕ, ◌+◌, ◌*◌, ◌^◌, ◌<◌, ◌≤◌, Some, None, length, IfSome, IsSome, if◌then◌else◌};
ghost use Rattle.cost_rules.specs.Formulas.{most_cost};
ghost use Rattle.gr_base.specs.Limits.{most_cells};
ghost use Rattle.gr_base.specs.Grid.{on_layer};
ghost use Rattle.gr_base.specs.Trees.{IsTree};
ghost use Rattle.layer_assign.specs.Assignments.{IsFlat};
ghost use Rattle.layer_assign.specs.Choices.{entry};
ghost use Rattle.layer_assign.specs.Runs.{Thins, StandsUnless};
ghost use Rattle.layer_assign.specs.Spans.{IsWithin, widened, spans_of};
ghost use Rattle.layer_assign.specs.Tables.{HasRows, IsSmall, IsLimb, AreWires, number_in, limb_cost, priced, offer, better, best_below, is_at_most};

use crate::runs::{a_climb_more, offer_on};
use crate::span::{Best, Limb, Span};
use crate::tables::{better_of, entry_with};
use cost_rules::Costs;
use gr_base::{Edge, RouteTree, Shape};

/// What the limb below a node's edge costs on one layer. None exactly where the layer doesn't go the
/// edge's way.
fn below_on<C: Costs>(
    costs: &C,
    shape: Shape,
    least: &[u64],
    node: u32,
    edge: Edge,
    base: Option<Span>,
    layer: u32,
) -> Option<u64>
    requires node { node < most_cells }
    requires base { IsWithin shape.layers base }
    requires layer { layer < shape.layers }
    requires row { node * spans_of shape.layers + spans_of shape.layers ≤ length least.now }
    ensures { result ≡ (if C.ways costs.now layer edge.way
        then Some (entry shape.layers least.now node (widened base layer)) else None) }
{
    if !costs.goes(layer, edge.way) {
        return None;
    }
    Some(entry_with(shape, least, node, base, layer))
}

/// Puts down the limb of a node, where its tile has a span without its own edge.
pub(crate) fn limb_of<C: Costs>(
    costs: &C,
    shape: Shape,
    flat: &RouteTree,
    least: &[u64],
    node: u32,
    base: Option<Span>,
    limb: &mut Limb,
)
    requires grid { C.grid costs.now ≡ shape }
    requires flat { IsFlat shape flat.now.shape }
    requires later { 0 < node }
    requires node { node < length flat.now.nodes }
    requires base { IsWithin shape.layers base }
    requires rows { HasRows shape.layers (length flat.now.nodes) least.now }
    requires small { IsSmall shape.layers least.now node }
    ensures limb { IsLimb shape (C.price costs.now) limb.new }
    ensures costs { (layer : ℕ) → layer < shape.layers → priced shape (C.price costs.now) limb.new layer
        ≡ limb_cost shape (C.price costs.now) flat.now least.now node base layer }
    ensures tree { IsTree flat.now }
{
    let edge = flat.edge_to_parent(node).unwrap();
    for layer in 0..shape.layers() {
        limb.below[layer as usize] = below_on(costs, shape, least, node, edge, base, layer);
    }
    limb.edge = edge;
}

/// What a limb's edge costs on a layer that goes its way. It's priced once.
fn wire_on<C: Costs>(
    costs: &C,
    shape: Shape,
    limb: &Limb,
    wires: &mut [Option<u64>; 16],
    layer: u32,
) -> u64
    requires grid { C.grid costs.now ≡ shape }
    requires limb { IsLimb shape (C.price costs.now) limb.now }
    requires layer { layer < shape.layers }
    requires goes { IsSome (number_in limb.now.below layer) }
    requires wires { AreWires shape (C.price costs.now) limb.now.edge wires.old }
    ensures wire { C.price costs.now (on_layer shape layer limb.now.edge) ≡ Some result }
    ensures most { result ≤ most_cost }
    ensures wires { AreWires shape (C.price costs.now) limb.now.edge wires.new }
{
    let Some(wire) = wires[layer as usize] else {
        let wire = costs.cost(shape.edge_over(layer, limb.edge)).unwrap();
        wires[layer as usize] = Some(wire);
        return wire;
    };
    wire
}

/// The best offer so far, or that of a layer where it costs less. The layer isn't priced where not
/// even an edge that costs 1 would be better.
fn best_with<C: Costs>(
    costs: &C,
    shape: Shape,
    limb: &Limb,
    wires: &mut [Option<u64>; 16],
    least: &[u64],
    parent: u32,
    span: Option<Span>,
    best: Option<Best>,
    layer: u32,
) -> Option<Best>
    requires grid { C.grid costs.now ≡ shape }
    requires limb { IsLimb shape (C.price costs.now) limb.now }
    requires wires { AreWires shape (C.price costs.now) limb.now.edge wires.old }
    requires layer { layer < shape.layers }
    requires span { IsWithin shape.layers span }
    requires parent { parent < most_cells }
    requires row { parent * spans_of shape.layers + spans_of shape.layers ≤ length least.now }
    requires small { entry shape.layers least.now parent (widened span layer) ≤ 2 ^ 50 }
    ensures best { result ≡ better best
        (offer shape (priced shape (C.price costs.now) limb.now) least.now parent span layer) }
    ensures wires { AreWires shape (C.price costs.now) limb.now.edge wires.new }
{
    let Some(below) = limb.below[layer as usize] else {
        return best;
    };
    let rest = below + entry_with(shape, least, parent, span, layer);
    if is_at_most(best, rest + 1) {
        return best;
    }
    let cost = wire_on(costs, shape, limb, wires, layer) + rest;
    better_of(best, Some(Best { layer, cost }))
}

/// Whether there is an offer that costs at most so much.
fn is_at_most(best: Option<Best>, cost: u64) -> bool
    ensures { result ≡ is_at_most best cost }
{
    match best {
        Some(best) => best.cost <= cost,
        None => false,
    }
}

/// The first layer of least cost, where the parent's tile has a span so far.
pub(crate) fn best_layer<C: Costs>(
    costs: &C,
    shape: Shape,
    limb: &Limb,
    wires: &mut [Option<u64>; 16],
    least: &[u64],
    parent: u32,
    span: Option<Span>,
) -> Option<Best>
    requires grid { C.grid costs.now ≡ shape }
    requires limb { IsLimb shape (C.price costs.now) limb.now }
    requires wires { AreWires shape (C.price costs.now) limb.now.edge wires.old }
    requires span { IsWithin shape.layers span }
    requires parent { parent < most_cells }
    requires row { parent * spans_of shape.layers + spans_of shape.layers ≤ length least.now }
    requires small { (other : ℕ) → other < shape.layers →
        entry shape.layers least.now parent (widened span other) ≤ 2 ^ 50 }
    ensures best { result ≡
        best_below (offer shape (priced shape (C.price costs.now) limb.now) least.now parent span) shape.layers }
    ensures wires { AreWires shape (C.price costs.now) limb.now.edge wires.new }
{
    let mut best = None;
    for layer in 0..shape.layers() {
        best = best_with(costs, shape, limb, wires, least, parent, span, best, layer);
    }
    best
}

/// What a limb costs on a layer. None where the layer doesn't go its edge's way, and where an offer
/// costs no more than a limb whose edge costs 1.
fn cost_unless<C: Costs>(
    costs: &C,
    shape: Shape,
    limb: &Limb,
    seen: Option<Best>,
    layer: u32,
) -> Option<u64>
    requires grid { C.grid costs.now ≡ shape }
    requires limb { IsLimb shape (C.price costs.now) limb.now }
    requires layer { layer < shape.layers }
    ensures cost { StandsUnless seen (priced shape (C.price costs.now) limb.now layer) result }
    ensures most { IfSome result (λ cost. cost ≤ 2 ^ 50 + most_cost) }
{
    let below = limb.below[layer as usize]?;
    if is_at_most(seen, below + 1) {
        return None;
    }
    let wire = costs.cost(shape.edge_over(layer, limb.edge))?;
    Some(wire + below)
}

/// Puts down what a limb costs on each layer but those on which a climb from a lower layer costs no
/// more.
pub(crate) fn run_costs<C: Costs>(
    costs: &C,
    shape: Shape,
    limb: &Limb,
    thin: &mut [Option<u64>; 16],
)
    requires grid { C.grid costs.now ≡ shape }
    requires limb { IsLimb shape (C.price costs.now) limb.now }
    ensures thins { Thins shape.layers (priced shape (C.price costs.now) limb.now) (number_in thin.new) }
    ensures most { (layer : ℕ) → layer < shape.layers →
        IfSome (number_in thin.new layer) (λ cost. cost ≤ 2 ^ 50 + most_cost) }
{
    let mut best = None;
    for layer in 0..shape.layers() {
        let seen = a_climb_more(best);
        thin[layer as usize] = cost_unless(costs, shape, limb, seen, layer);
        best = better_of(seen, offer_on(thin, layer));
    }
}
