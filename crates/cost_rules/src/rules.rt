//! Keeps what a caller gave: one rule for each formula and one watcher for each watch, each shown to be of its kind.
ghost use Rattle.std.specs.Prelude.{◌≡◌};
ghost use Rattle.cost_rules.specs.declared.site.Formula.TheVariants.{First, Steep, Flat, Near};
ghost use Rattle.cost_rules.specs.declared.sight.Watch.TheVariants.{Never, Still, Goal};

use crate::rule::CostRule;
use crate::site::Formula;
use crate::watcher::Watcher;

/// The rule of each formula and the watcher of each watch.
#[derive(Clone, Copy)]
pub struct Rules {
    first: CostRule,
    steep: CostRule,
    flat: CostRule,
    near: CostRule,
    never: Watcher,
    still: Watcher,
    goal: Watcher,
    ghost is_first: { first.formula ≡ First },
    ghost is_steep: { steep.formula ≡ Steep },
    ghost is_flat: { flat.formula ≡ Flat },
    ghost is_near: { near.formula ≡ Near },
    ghost is_never: { never.watch ≡ Never },
    ghost is_still: { still.watch ≡ Still },
    ghost is_goal: { goal.watch ≡ Goal },
}

impl Rules {
    /// The rules and watchers, in the order of the formulas and the watches.
    pub fn new(
        first: CostRule,
        steep: CostRule,
        flat: CostRule,
        near: CostRule,
        never: Watcher,
        still: Watcher,
        goal: Watcher,
    ) -> Rules
        requires first { first.formula ≡ First }
        requires steep { steep.formula ≡ Steep }
        requires flat { flat.formula ≡ Flat }
        requires near { near.formula ≡ Near }
        requires never { never.watch ≡ Never }
        requires still { still.watch ≡ Still }
        requires goal { goal.watch ≡ Goal }
        ensures first { result.first ≡ first }
        ensures steep { result.steep ≡ steep }
        ensures flat { result.flat ≡ flat }
        ensures near { result.near ≡ near }
        ensures never { result.never ≡ never }
        ensures still { result.still ≡ still }
        ensures goal { result.goal ≡ goal }
    {
        Rules {
            first,
            steep,
            flat,
            near,
            never,
            still,
            goal,
        }
    }

    /// The rule of a formula.
    pub fn of(&self, formula: Formula) -> &CostRule
        ensures { result.now.formula ≡ formula }
    {
        match formula {
            Formula::First => self.first(),
            Formula::Steep => self.steep(),
            Formula::Flat => self.flat(),
            Formula::Near => self.near(),
        }
    }

    /// The rule of the first formula.
    pub fn first(&self) -> &CostRule
        ensures value { result.now ≡ self.now.first }
        ensures formula { result.now.formula ≡ First }
    {
        &self.first
    }

    /// The rule of the steep formula.
    pub fn steep(&self) -> &CostRule
        ensures value { result.now ≡ self.now.steep }
        ensures formula { result.now.formula ≡ Steep }
    {
        &self.steep
    }

    /// The rule of the flat formula.
    pub fn flat(&self) -> &CostRule
        ensures value { result.now ≡ self.now.flat }
        ensures formula { result.now.formula ≡ Flat }
    {
        &self.flat
    }

    /// The rule of the near formula.
    pub fn near(&self) -> &CostRule
        ensures value { result.now ≡ self.now.near }
        ensures formula { result.now.formula ≡ Near }
    {
        &self.near
    }

    /// The watcher that stops the rounds at no sight.
    pub fn never(&self) -> &Watcher
        ensures value { result.now ≡ self.now.never }
        ensures watch { result.now.watch ≡ Never }
    {
        &self.never
    }

    /// The watcher that stops them where a round has not made the overflow smaller.
    pub fn still(&self) -> &Watcher
        ensures value { result.now ≡ self.now.still }
        ensures watch { result.now.watch ≡ Still }
    {
        &self.still
    }

    /// The watcher that stops them where the overflow is at most the goal.
    pub fn goal(&self) -> &Watcher
        ensures value { result.now ≡ self.now.goal }
        ensures watch { result.now.watch ≡ Goal }
    {
        &self.goal
    }
}
