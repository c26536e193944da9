//! Chooses layers where a tile has no pins and just two edges, in time linear in the number of layers.
ghost use Rattle.std.specs.Prelude.{◌≡◌, ℕ, ◌+◌, ◌-◌, ◌^◌, ◌<◌, ◌≤◌, ◌&&◌, ◌==◌, not, is_none, nat_lt, None, Option, Some, length, slice_get, IfSome, IsTrue};
ghost use Rattle.cost_rules.specs.Formulas.{most_cost};
ghost use Rattle.gr_base.specs.Limits.{most_cells};
ghost use Rattle.layer_assign.specs.declared.span.Span.{Span as SpanView};
ghost use Rattle.layer_assign.specs.Spans.{IsWithin, climb};
ghost use Rattle.layer_assign.specs.Assignments.{IsFlat, parent_of, may_take};
ghost use Rattle.layer_assign.specs.Choices.{entry};
ghost use Rattle.layer_assign.specs.Tables.{HasRows, IsSmall, number_in};
ghost use Rattle.layer_assign.specs.Chosen.{Chooses};
ghost use Rattle.layer_assign.specs.Runs.{is_run, offer_on, a_climb_more, best_from};

use crate::limbs::{limb_of, run_costs};
use crate::span::{Best, Span, Workings};
use crate::spans::widened;
use crate::tables::{better_of, write_best};
use cost_rules::{Costs, VIA_PRICE};
use gr_base::{RouteTree, Shape};

/// Whether a tile is on a run: the next node is the first to join it, and it has no pins and isn't
/// node 0's.
pub(crate) fn is_run(parent: u32, node: u32, pins: Option<Span>, joined: bool) -> bool
    requires { parent < most_cells }
    ensures { result ≡ is_run parent node pins joined }
{
    parent + 1 == node && 0 < parent && pins.is_none() && !joined
}

/// Chooses the best layer of the edge of a node whose parent's tile is on a run, for each layer of
/// this tile's own edge.
///
/// There the tile costs a climb for each layer between the two. So the best of the layers up to one
/// and the best of those above are passed on from layer to layer, with one climb more each time.
pub(crate) fn choose_on_run<C: Costs>(
    costs: &C,
    shape: Shape,
    flat: &RouteTree,
    base: Option<Span>,
    node: u32,
    least: &mut Vec<u64>,
    choices: &mut Vec<u32>,
    workings: &mut Workings,
)
    requires grid { C.grid costs.now ≡ shape }
    requires flat { IsFlat shape flat.now.shape }
    requires early { 0 < parent_of flat.now node }
    requires next { parent_of flat.now node + 1 ≡ node }
    requires node { node < length flat.now.nodes }
    requires layer { (layer : ℕ) × IsTrue (may_take shape (C.ways costs.now) flat.now node layer) }
    requires base { IsWithin shape.layers base }
    requires costs { HasRows shape.layers (length flat.now.nodes) least.old.items }
    requires choices { HasRows shape.layers (length flat.now.nodes) choices.old.items }
    requires own { IsSmall shape.layers least.old.items node }
    requires climbs { (s : Option SpanView) → IsWithin shape.layers s →
        entry shape.layers least.old.items (parent_of flat.now node) s ≡ climb s }
    ensures { Chooses shape (C.ways costs.now) (C.price costs.now) flat.now node base None
        least.old.items least.new.items choices.old.items choices.new.items }
{
    limb_of(costs, shape, flat, least, node, base, &mut workings.limb);
    run_costs(costs, shape, &workings.limb, &mut workings.limbs);
    bests_above(shape, &workings.limbs, &mut workings.above);
    let parent = flat.parent(node);
    let mut below = None;
    for layer in 0..shape.layers() {
        below = better_of(a_climb_more(below), offer_on(&workings.limbs, layer));
        let best = better_of(below, workings.above[layer as usize]);
        write_best(
            shape,
            parent,
            node,
            widened(None, layer),
            best,
            least,
            choices,
        );
    }
}

/// Puts down for each layer the best of the layers above it, as it sees them.
fn bests_above(shape: Shape, limbs: &[Option<u64>; 16], above: &mut [Option<Best>; 16])
    requires { (other : ℕ) → other < shape.layers →
        IfSome (number_in limbs.now other) (λ cost. cost ≤ 2 ^ 50 + most_cost) }
    ensures { (layer : ℕ) → layer < shape.layers → slice_get above.new layer ≡
        Some (a_climb_more (best_from (number_in limbs.now) (layer + 1) (shape.layers - (layer + 1)))) }
{
    let mut best = None;
    for layer in (0..shape.layers()).rev() {
        let seen = a_climb_more(best);
        above[layer as usize] = seen;
        best = better_of(offer_on(limbs, layer), seen);
    }
}

/// A layer with what the limb costs on it.
pub(crate) fn offer_on(limbs: &[Option<u64>; 16], layer: u32) -> Option<Best>
    requires { layer < 16 }
    ensures { result ≡ offer_on (number_in limbs.now) layer }
{
    let cost = limbs[layer as usize]?;
    Some(Best { layer, cost })
}

/// An offer as the next layer sees it, with one climb more.
pub(crate) fn a_climb_more(offer: Option<Best>) -> Option<Best>
    requires { IfSome offer (λ best. best.cost ≤ 2 ^ 60) }
    ensures { result ≡ a_climb_more offer }
{
    let best = offer?;
    Some(Best {
        layer: best.layer,
        cost: best.cost + VIA_PRICE,
    })
}
