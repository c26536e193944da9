//! A rule from a function of the caller's own.
ghost use Rattle.std.specs.Prelude.{◌≡◌};
ghost use Rattle.cost_rules.specs.declared.site.Formula.TheVariants.{Flat};
ghost use Rattle.cost_rules.specs.Formulas.{IsInRange, cost_at};

use cost_rules::{MOST_COST, Site};

/// The flat formula by cases.
pub(crate) fn flat_by_cases(site: Site) -> u64
    requires { IsInRange site }
    ensures { result ≡ cost_at Flat site }
{
    let taken = site.demand + site.need;
    if taken <= site.capacity {
        1
    } else {
        (taken - site.capacity + 1).min(MOST_COST)
    }
}
