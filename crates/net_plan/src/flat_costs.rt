//! The costs that flat walks are planned by: of each edge the least over the layers, worked out when asked for.
ghost use Rattle.std.specs.Prelude.{◌≡◌, ◌<◌, Some, IsTrue};
ghost use Rattle.gr_base.specs.Grid.{has_edge, on_layer};
ghost use Rattle.net_plan.specs.Prices.{kept_prices};
ghost use Rattle.layer_assign.specs.Assignments.{IsFlat as IsFlattened};
ghost use Rattle.net_plan.specs.FlatPrices.{lesser, flat_price_of, flat_ways_of, HasFlatPrices};

use crate::net_costs::NetCosts;
use cost_rules::Costs;
use gr_base::{Edge, Shape, Way};

/// What the edges of a grid cost where its layers are laid on one another: each the least of what
/// the edges over it cost.
#[derive(Clone, Copy)]
pub(crate) struct FlatCosts<'a> {
    pub(crate) costs: &'a NetCosts<'a>,
    pub(crate) shape: Shape,
    pub(crate) ghost flattened: { IsFlattened costs.now.capacity.now.shape shape },
    pub(crate) ghost prices: { HasFlatPrices shape costs.now.capacity.now costs.now.loads.now
        costs.now.rule.now.formula costs.now.net },
}

impl<'a> FlatCosts<'a> {
    pub(crate) fn new(costs: &'a NetCosts<'a>) -> Self
        ensures capacity { result.costs.now.capacity.now ≡ costs.now.capacity.now }
        ensures loads { result.costs.now.loads.now ≡ costs.now.loads.now }
        ensures formula { result.costs.now.rule.now.formula ≡ costs.now.rule.now.formula }
        ensures net { result.costs.now.net ≡ costs.now.net }
    {
        FlatCosts {
            costs,
            shape: flattened(costs.capacity.shape()),
        }
    }

    /// How many layers there are.
    fn layers(&self) -> u32
        ensures { result ≡ self.now.costs.now.capacity.now.shape.layers }
    {
        self.costs.capacity.shape().layers()
    }

    /// The edge on a layer over an edge.
    fn over(&self, e: Edge, layer: u32) -> Edge
        requires edge { IsTrue (has_edge self.now.shape e) }
        requires layer { layer < self.now.costs.now.capacity.now.shape.layers }
        ensures over { result ≡ on_layer self.now.costs.now.capacity.now.shape layer e }
        ensures edge { IsTrue (has_edge self.now.costs.now.capacity.now.shape result) }
    {
        self.costs.capacity.shape().edge_over(layer, e)
    }
}

impl Costs for FlatCosts<'_> {
    ghost grid = { λ c. c.shape };

    ghost ways = { λ c. flat_ways_of c.costs.now.capacity.now };

    ghost price = { λ c. flat_price_of c.costs.now.capacity.now c.costs.now.loads.now
        c.costs.now.rule.now.formula c.costs.now.net };

    ghost prices = { λ c. kept_prices c.shape (flat_ways_of c.costs.now.capacity.now)
        (flat_price_of c.costs.now.capacity.now c.costs.now.loads.now c.costs.now.rule.now.formula c.costs.now.net)
        c.prices };

    fn goes(&self, _layer: u32, way: Way) -> bool {
        for layer in 0..self.layers() {
            if self.costs.goes(layer, way) {
                return true;
            }
        }
        false
    }

    fn cost(&self, e: Edge) -> Option<u64> {
        let mut least = None;
        for layer in 0..self.layers() {
            if !self.costs.goes(layer, e.way) {
                continue;
            }
            let cost = self.costs.cost(self.over(e, layer));
            if is_least(cost) {
                return cost;
            }
            least = lesser(least, cost);
        }
        least
    }

    fn via(&self, e: Edge) -> Option<u64> {
        self.cost(e)
    }

    fn least_via(&self) -> u64 {
        1
    }
}

/// The grid of the same tiles with one layer.
pub(crate) fn flattened(shape: Shape) -> Shape
    ensures { IsFlattened shape result }
{
    Shape {
        columns: shape.columns,
        rows: shape.rows,
        layers: 1,
    }
}

/// Whether there is a cost, and it is 1: no edge costs less.
fn is_least(cost: Option<u64>) -> bool
    ensures { IsTrue result → cost ≡ Some 1 }
{
    let Some(cost) = cost else {
        return false;
    };
    cost == 1
}

/// The lesser of two costs, if there are two.
fn lesser(a: Option<u64>, b: Option<u64>) -> Option<u64>
    ensures { result ≡ lesser a b }
{
    match (a, b) {
        (Some(a), Some(b)) => Some(a.min(b)),
        (None, least) | (least, None) => least,
    }
}
