//! Pairs a function with the formula that it was shown to compute, so that callers can bring rules of their own.
ghost use Rattle.std.specs.Prelude.{◌≡◌, ℕ, ◌≤◌};
ghost use Rattle.cost_rules.specs.declared.site.Formula.{Formula};
ghost use Rattle.cost_rules.specs.declared.site.Site.{Site};
ghost use Rattle.cost_rules.specs.Formulas.{IsInRange, most_cost, cost_at, at_demand};

use crate::site::{Formula, Site};
use std::marker::Model;

/// A function that computes a formula, and which formula it is.
#[derive(Clone, Copy)]
pub struct CostRule {
    formula: Formula,
    rule: fn(Site) -> u64,
    ghost callable: { (site : Site) → IsInRange site → pre rule site },
    ghost gives: { (site : Site) (cost : ℕ) → IsInRange site → post rule site cost →
        cost ≡ cost_at formula site },
}

impl CostRule {
    /// A rule of the caller's: its function, and the formula that it computes on sites in range.
    pub fn new(formula: Formula, rule: fn(Site) -> u64) -> CostRule
        requires callable { (site : Site) → IsInRange site → pre rule site }
        requires gives { (site : Site) (cost : ℕ) → IsInRange site → post rule site cost →
            cost ≡ cost_at formula site }
        ensures { result.formula ≡ formula }
    {
        CostRule { formula, rule }
    }

    /// What the site costs, from 1 to 1,048,576.
    pub fn cost(&self, site: Site) -> u64
        requires { IsInRange site }
        ensures value { result ≡ cost_at self.now.formula site }
        ensures least { 1 ≤ result }
        ensures most { result ≤ most_cost }
        // A cost never falls as demand rises.
        ensures rises { (demand : ℕ) → site.demand ≤ demand →
            result ≤ cost_at self.now.formula (at_demand site demand) }
    {
        (self.rule)(site)
    }

    /// The formula that the function computes.
    pub fn formula(&self) -> Formula
        ensures { result ≡ self.now.formula }
    {
        self.formula
    }
}
