//! Prices of wire edges that lie side by side.
ghost use Rattle.std.specs.Prelude.{◌≡◌, ◌+◌, ◌*◌, ◌≤◌, Some, length};
ghost use Rattle.cost_rules.specs.Formulas.{IsInRange, cost_at};
ghost use Rattle.cost_rules.specs.declared.site.Formula.TheVariants.{First, Near};
ghost use Rattle.cost_rules.specs.Prices.{layer_of};
ghost use Rattle.gr_base.specs.Limits.{most_capacity, most_width};
ghost use Rattle.grid_demand.specs.LoadSums.{demand_at, marks_at};
ghost use Rattle.grid_demand.specs.Runs.{IsRunOf};
ghost use Rattle.grid_demand.specs.Tables.{IsCapacity, capacity_at, need_at};
ghost use Rattle.maze_route.specs.Runs.{price_from, AreSideBySide, IsRun};
ghost use Rattle.net_plan.specs.Prices.{price_of, ways_of};
ghost use Rattle.net_plan.specs.Sites.{whole_site};

use crate::net_costs::NetCosts;
use crate::scarcity::scarcity;
use cost_rules::{Formula, MOST_COST, Site, flat_cost, steep_cost};
use gr_base::Edge;

/// The sites of a net at wire edges that lie side by side on a layer. The net takes the same of each.
#[derive(Clone, Copy)]
pub(crate) struct SiteRun<'a> {
    pub(crate) demands: &'a [u16],
    pub(crate) marks: &'a [u16],
    pub(crate) capacities: &'a [u32],
    pub(crate) need: u64,
}

impl NetCosts<'_> {
    /// Puts the prices of the edges from one on, which have these sites, into a list from a place on. The
    /// formula is the rule's: where it is written as such, the loop is made for it alone.
    #[inline(always)]
    pub(crate) fn price_sites(
        &self,
        formula: Formula,
        from: Edge,
        sites: &SiteRun<'_>,
        first: usize,
        prices: &mut [u32],
    )
        requires formula { self.now.rule.now.formula ≡ formula }
        requires edges { AreSideBySide self.now.capacity.now.shape (ways_of self.now.capacity.now) from
            (length sites.now.demands.now) }
        requires tables { IsCapacity self.now.capacity.now }
        requires demands { IsRunOf (demand_at self.now.loads.now) from (length sites.now.demands.now)
            sites.now.demands.now }
        requires marks { IsRunOf (marks_at self.now.loads.now) from (length sites.now.demands.now) sites.now.marks.now }
        requires capacities { IsRunOf (capacity_at self.now.capacity.now) from (length sites.now.demands.now)
            sites.now.capacities.now }
        requires need { sites.now.need ≡ need_at self.now.capacity.now self.now.net from }
        requires most { sites.now.need ≤ 2 * most_width }
        requires inside { first + length sites.now.demands.now ≤ length prices.old }
        ensures { IsRun (price_of self.now.capacity.now self.now.loads.now self.now.rule.now.formula self.now.net)
            from first (length sites.now.demands.now) prices.old prices.new }
    {
        let need = sites.need as u32;
        for place in 0..sites.demands.len() {
            let site = SmallSite {
                demand: sites.demands[place],
                capacity: sites.capacities[place],
                need,
                marks: sites.marks[place],
            };
            prices[first + place] = site_price(formula, site);
        }
    }
}

/// A site whose numbers take less room.
#[derive(Clone, Copy)]
struct SmallSite {
    demand: u16,
    capacity: u32,
    need: u32,
    marks: u16,
}

impl SmallSite {
    /// The site.
    fn whole(self) -> Site
        requires capacity { self.capacity ≤ most_capacity }
        requires need { self.need ≤ 2 * most_width }
        ensures site { result ≡ whole_site self }
        ensures in_range { IsInRange result }
    {
        Site {
            demand: u64::from(self.demand),
            capacity: u64::from(self.capacity),
            need: u64::from(self.need),
            marks: u32::from(self.marks),
        }
    }
}

/// What a site costs by a formula, as a list of prices holds it.
#[inline(always)]
fn site_price(formula: Formula, site: SmallSite) -> u32
    requires capacity { site.capacity ≤ most_capacity }
    requires need { site.need ≤ 2 * most_width }
    ensures { price_from (Some result) ≡ Some (cost_at formula (whole_site site)) }
{
    match formula {
        Formula::First => first_price(site),
        Formula::Steep => steep_cost(site.whole()) as u32,
        Formula::Flat => flat_cost(site.whole()) as u32,
        Formula::Near => near_price(site),
    }
}

/// What a site costs by the first formula, in numbers of which processors take several at a time.
#[inline(always)]
fn first_price(site: SmallSite) -> u32
    requires { site.need ≤ 2 * most_width }
    ensures { result ≡ cost_at First (whole_site site) }
{
    let most = MOST_COST as u32;
    let overflow = (u32::from(site.demand) + site.need).saturating_sub(site.capacity);
    // As much overflow has the greatest cost.
    let counted = overflow.min(most / 8);
    most.min(1 + u32::from(site.marks) + 8 * counted)
}

/// What a site costs by the near formula, in numbers of which processors take several at a time.
#[inline(always)]
fn near_price(site: SmallSite) -> u32
    requires capacity { site.capacity ≤ most_capacity }
    requires need { site.need ≤ 2 * most_width }
    ensures { result ≡ cost_at Near (whole_site site) }
{
    let most = MOST_COST as u32;
    let taken = u32::from(site.demand) + site.need;
    let room = site.capacity.saturating_sub(taken);
    let scarce = scarcity(site.marks, room, site.need.max(1));
    // As much overflow has the greatest cost.
    let counted = taken.saturating_sub(site.capacity).min(most / 8);
    most.min(1 + scarce + 8 * counted)
}
