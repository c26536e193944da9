//! The costs of a design's edges to one net, worked out from lent capacity and loads whenever they are asked for.
ghost use Rattle.std.specs.Prelude.{◌≡◌, ◌*◌, ◌≤◌, IsTrue};
ghost use Rattle.cost_rules.specs.Formulas.{IsInRange, most_cost, cost_at};
ghost use Rattle.gr_base.specs.Grid.{has_edge, is_wire};
ghost use Rattle.gr_base.specs.Limits.{most_width};
ghost use Rattle.grid_demand.specs.Tables.{capacity_of};
ghost use Rattle.net_plan.specs.Sites.{calm_room};
ghost use Rattle.net_plan.specs.Prices.{HasBoundedDemand, HasNetPrices, kept_prices, site_of, price_of, ways_of};

use crate::site_run::SiteRun;
use cost_rules::{CostRule, Costs, Formula, Site, VIA_PRICE};
use gr_base::{Design, Edge, Frame, Way};
use grid_demand::{Capacity, Loads};
use maze_route::{RunCosts, price_each};

/// What the edges of a design's grid cost a net over given loads: a via edge 3, a usable wire edge what the
/// rule gives at the edge's demand, capacity and marks and the net's need.
#[derive(Clone, Copy)]
pub(crate) struct NetCosts<'a> {
    pub(crate) frame: &'a Frame,
    pub(crate) capacity: &'a Capacity,
    pub(crate) loads: &'a Loads,
    pub(crate) rule: &'a CostRule,
    pub(crate) net: u32,
    pub(crate) ghost layers: { frame.now.layers ≡ capacity.now.layers },
    pub(crate) ghost shape: { loads.now.shape ≡ capacity.now.shape },
    pub(crate) ghost bounded: { HasBoundedDemand loads.now },
    pub(crate) ghost prices: { HasNetPrices capacity.now loads.now rule.now.formula net },
}

impl<'a> NetCosts<'a> {
    pub(crate) fn new(
        design: &'a Design,
        capacity: &'a Capacity,
        loads: &'a Loads,
        net: u32,
        rule: &'a CostRule,
    ) -> Self
        requires capacity { capacity.now ≡ capacity_of design.now }
        requires loads { loads.now.shape ≡ design.now.frame.shape }
        requires bounded { HasBoundedDemand loads.now }
        ensures capacity { result.capacity.now ≡ capacity.now }
        ensures loads { result.loads.now ≡ loads.now }
        ensures formula { result.rule.now.formula ≡ rule.now.formula }
        ensures net { result.net ≡ net }
    {
        NetCosts {
            frame: design.frame(),
            capacity,
            loads,
            rule,
            net,
        }
    }

    /// The net at a wire edge.
    fn site(&self, e: Edge) -> Site
        requires edge { IsTrue (has_edge self.now.capacity.now.shape e) }
        requires wire { IsTrue (is_wire e) }
        ensures site { result ≡ site_of self.now.capacity.now self.now.loads.now self.now.net e }
        ensures in_range { IsInRange result }
    {
        Site {
            demand: self.loads.demand(e),
            capacity: self.capacity.at(e),
            need: self.capacity.need(self.net, e),
            marks: self.loads.marks(e),
        }
    }

    /// What a site costs by the rule. Where the net fits, with what the rule wants beside it, and no mark was
    /// left, each formula gives 1.
    #[inline(always)]
    pub(crate) fn cost_at(&self, site: Site) -> u64
        requires { IsInRange site }
        ensures value { result ≡ cost_at self.now.rule.now.formula site }
        ensures least { 1 ≤ result }
        ensures most { result ≤ most_cost }
    {
        let room = site.demand + site.need + self.calm_room(site.need);
        if site.marks == 0 && room <= site.capacity {
            return 1;
        }
        self.rule.cost(site)
    }

    /// How much free room beside the net makes an edge without marks cost no more than an empty one.
    #[inline(always)]
    fn calm_room(&self, need: u64) -> u64
        requires { need ≤ 2 * most_width }
        ensures value { result ≡ calm_room self.now.rule.now.formula need }
        ensures most { result ≤ 6 * most_width }
    {
        match self.rule.formula() {
            Formula::First | Formula::Steep | Formula::Flat => 0,
            Formula::Near => 3 * need.max(1),
        }
    }
}

impl Costs for NetCosts<'_> {
    ghost grid = { λ c. c.capacity.now.shape };

    ghost ways = { λ c. ways_of c.capacity.now };

    ghost price = { λ c. price_of c.capacity.now c.loads.now c.rule.now.formula c.net };

    ghost prices = { λ c. kept_prices c.capacity.now.shape (ways_of c.capacity.now)
        (price_of c.capacity.now c.loads.now c.rule.now.formula c.net) c.prices };

    fn goes(&self, layer: u32, way: Way) -> bool {
        let stated = self.frame.layers.get(layer as usize);
        match way {
            Way::East => stated.is_some_and(|stated| stated.horizontal != 0),
            Way::North => stated.is_some_and(|stated| stated.vertical != 0),
            Way::Up => true,
        }
    }

    // Searches ask it at each step, and a call takes as long as the answer.
    #[inline(always)]
    fn cost(&self, e: Edge) -> Option<u64> {
        if !self.capacity.usable(e) {
            return None;
        }
        if e.way == Way::Up {
            return Some(VIA_PRICE);
        }
        Some(self.cost_at(self.site(e)))
    }

    // All via edges cost the same, so that a search's step along one needs no edge of the book.
    #[inline(always)]
    fn via(&self, _e: Edge) -> Option<u64> {
        Some(VIA_PRICE)
    }

    fn least_via(&self) -> u64 {
        VIA_PRICE
    }
}

impl RunCosts for NetCosts<'_> {
    // The edges lie on one layer, so the net takes the same of each.
    fn price_run(&self, from: Edge, count: u32, first: usize, prices: &mut Vec<u32>) {
        if count == 0 {
            return;
        }
        let Some(demands) = self.loads.demand_run(from, count) else {
            price_each(self, from, count, first, prices);
            return;
        };
        let Some(marks) = self.loads.marks_run(from, count) else {
            price_each(self, from, count, first, prices);
            return;
        };
        let capacities = self.capacity.run(from, count);
        let need = self.capacity.need(self.net, from);
        let sites = SiteRun {
            demands,
            marks,
            capacities,
            need,
        };
        match self.rule.formula() {
            Formula::First => self.price_sites(Formula::First, from, &sites, first, prices),
            Formula::Steep => self.price_sites(Formula::Steep, from, &sites, first, prices),
            Formula::Flat => self.price_sites(Formula::Flat, from, &sites, first, prices),
            Formula::Near => self.price_sites(Formula::Near, from, &sites, first, prices),
        }
    }
}
