//! The rules and watchers that the commands are handed.

/// The rule of each formula and the watcher of each watch, by the functions of the crate cost_rules,
/// on which the caller's crate stands too. It is no function: a function pointer is made in the program
/// that hands it in, so that the contract of its function, of which `Rules::new` asks that it gives
/// this very formula or watch, goes with it.
#[macro_export]
macro_rules! own_rules {
    () => {
        cost_rules::Rules::new(
            cost_rules::CostRule::new(cost_rules::Formula::First, cost_rules::first_cost),
            cost_rules::CostRule::new(cost_rules::Formula::Steep, cost_rules::steep_cost),
            cost_rules::CostRule::new(cost_rules::Formula::Flat, cost_rules::flat_cost),
            cost_rules::CostRule::new(cost_rules::Formula::Near, cost_rules::near_cost),
            cost_rules::Watcher::new(cost_rules::Watch::Never, cost_rules::never),
            cost_rules::Watcher::new(cost_rules::Watch::Still, cost_rules::still),
            cost_rules::Watcher::new(cost_rules::Watch::Goal, cost_rules::goal),
        )
    };
}
