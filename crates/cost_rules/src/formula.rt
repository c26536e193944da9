//! The cost formulas.
ghost use Rattle.std.specs.Prelude.{◌≡◌, ◌+◌, ◌*◌, ◌^◌, ◌≤◌, min};
ghost use Rattle.cost_rules.specs.declared.site.Formula.TheVariants.{First, Steep, Flat, Near};
ghost use Rattle.cost_rules.specs.Formulas.{IsInRange, free_at, overflow_at, most_cost, cost_at, reach, scarcity as scarcity_of};
ghost use Rattle.gr_base.specs.Limits.{most_marks, most_width};

use crate::site::{Formula, Site};

/// The greatest cost of an edge, at which each formula stops.
pub const MOST_COST: u64 = 1_048_576;

/// What a via edge costs where routes are planned. Wire edges cost from 1 on.
pub const VIA_PRICE: u64 = 3;

/// The cost by the first formula: 1, the marks, and 8 for each unit of overflow.
pub fn first_cost(site: Site) -> u64
    requires { IsInRange site }
    ensures { result ≡ cost_at First site }
{
    scaled(site, 8)
}

/// The cost by the steep formula: 1, the marks, and 8 and the marks for each unit of overflow.
///
/// After the product of present and past congestion of McMurchie and Ebeling, "PathFinder", 1995.
pub fn steep_cost(site: Site) -> u64
    requires { IsInRange site }
    ensures { result ≡ cost_at Steep site }
{
    scaled(site, 8 + u64::from(site.marks))
}

/// The cost by the flat formula: 1, and 1 for each unit of overflow.
pub fn flat_cost(site: Site) -> u64
    requires { IsInRange site }
    ensures { result ≡ cost_at Flat site }
{
    MOST_COST.min(1 + overflow(site))
}

/// The cost by the near formula: 1, 8 for each unit of overflow, and for an edge that is nearly full 4 and
/// four times its marks, halved for each further net of the same need that it holds.
pub fn near_cost(site: Site) -> u64
    requires { IsInRange site }
    ensures { result ≡ cost_at Near site }
{
    overflow(site)
        .saturating_mul(8)
        .saturating_add(1 + scarcity(site.marks, free_nets(site)))
        .min(MOST_COST)
}

/// How many further nets of the same need the edge holds with the net on it.
fn free_nets(site: Site) -> u64
    requires { IsInRange site }
    ensures { result ≡ free_at site }
{
    let free = site.capacity.saturating_sub(site.demand + site.need);
    free / site.need.max(1)
}

/// What an edge with so many marks costs for being nearly full, where it still holds so many nets.
fn scarcity(marks: u32, free: u64) -> u64
    requires { marks ≤ most_marks }
    ensures value { result ≡ scarcity_of marks free }
    ensures most { result ≤ 4 * (most_marks + 1) }
{
    if free > 23 {
        return 0;
    }
    (4 * (u64::from(marks) + 1)) >> free
}

/// 1, the marks and `weight` for each unit of overflow, at most the greatest cost.
fn scaled(site: Site, weight: u64) -> u64
    requires { IsInRange site }
    ensures { result ≡ min most_cost (1 + site.marks + weight * overflow_at site) }
{
    overflow(site)
        .saturating_mul(weight)
        .saturating_add(1 + u64::from(site.marks))
        .min(MOST_COST)
}

/// How many free units at least tell a formula nothing more, for a net that needs so much: sites with them,
/// and as many marks, cost the same.
#[inline(always)]
pub fn reach(formula: Formula, need: u64) -> u64
    requires { need ≤ 2 * most_width }
    ensures value { result ≡ reach formula need }
    ensures most { result ≤ 46 * most_width }
{
    match formula {
        Formula::First | Formula::Steep | Formula::Flat => 0,
        Formula::Near => 23 * need.max(1),
    }
}

/// By how many units of width the edge would be over its capacity with the net on it.
fn overflow(site: Site) -> u64
    requires { IsInRange site }
    ensures value { result ≡ overflow_at site }
    ensures most { result ≤ 2 ^ 62 + 2000 }
{
    (site.demand + site.need).saturating_sub(site.capacity)
}
