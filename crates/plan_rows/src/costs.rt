//! The formulas of cost and the watches.
ghost use Rattle.cost_rules.specs.Formulas.{IsInRange};

use crate::numbers::{at, great};
use crate::own_rule::flat_by_cases;
use cost_rules::{
    CostRule, Formula, Rules, Sight, Site, Watch, Watcher, first_cost, flat_cost, goal, near_cost,
    never, steep_cost, still,
};
use std::io;

/// Prints what a site costs, or what the watches say of a sight.
pub(crate) fn tell<R: Print>(rt: &R, command: &str, numbers: &[u64]) -> io::Result<()> {
    let rules = Rules::new(
        CostRule::new(Formula::First, first_cost),
        CostRule::new(Formula::Steep, steep_cost),
        CostRule::new(Formula::Flat, flat_cost),
        CostRule::new(Formula::Near, near_cost),
        Watcher::new(Watch::Never, never),
        Watcher::new(Watch::Still, still),
        Watcher::new(Watch::Goal, goal),
    );
    let own = CostRule::new(Formula::Flat, flat_by_cases);
    if command == "cost" {
        tell_site(rt, &rules, &own, numbers)
    } else {
        tell_sight(rt, &rules, numbers)
    }
}

/// Prints what a site costs.
fn tell_site<R: Print>(rt: &R, rules: &Rules, own: &CostRule, numbers: &[u64]) -> io::Result<()> {
    let site = Site {
        demand: great(numbers, 0),
        capacity: great(numbers, 1),
        need: great(numbers, 2),
        marks: at(numbers, 3),
    };
    let is_in_range = site.demand <= 1 << 62
        && site.capacity <= 1_000_000
        && site.need <= 2_000
        && site.marks <= 1_048_576;
    if !is_in_range {
        return Ok(());
    }
    tell_cost(rt, rules.first(), site)?;
    tell_cost(rt, rules.steep(), site)?;
    tell_cost(rt, rules.flat(), site)?;
    tell_cost(rt, rules.near(), site)?;
    tell_cost(rt, own, site)
}

/// Prints what a rule makes of a site.
fn tell_cost<R: Print>(rt: &R, rule: &CostRule, site: Site) -> io::Result<()>
    requires { IsInRange site }
{
    println!(rt; "{:?}: cost {}", rule.formula(), rule.cost(site))
}

/// Prints what the watches say of a sight.
fn tell_sight<R: Print>(rt: &R, rules: &Rules, numbers: &[u64]) -> io::Result<()> {
    let sight = Sight {
        overflow: u128::from(great(numbers, 0)),
        goal: u128::from(great(numbers, 1)),
        before: numbers.get(2).map(|before| u128::from(*before)),
    };
    tell_look(rt, rules.never(), sight)?;
    tell_look(rt, rules.still(), sight)?;
    tell_look(rt, rules.goal(), sight)
}

/// Prints what a watcher says of a sight.
fn tell_look<R: Print>(rt: &R, watcher: &Watcher, sight: Sight) -> io::Result<()> {
    println!(rt; "{:?}: {:?}", watcher.watch(), watcher.look(sight))
}
