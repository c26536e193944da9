//! Decides by a sight alone whether another round is to begin: one function for each watch.
ghost use Rattle.std.specs.Prelude.{◌≡◌};
ghost use Rattle.cost_rules.specs.declared.sight.Watch.TheVariants.{Still, Goal};
ghost use Rattle.cost_rules.specs.Watching.{watch_says};

use crate::sight::{Going, Sight};

/// Goes on at every sight.
pub fn never(_sight: Sight) -> Going
    ensures { result ≡ Going.On }
{
    Going::On
}

/// Stops where the overflow is at least what it was a round before.
pub fn still(sight: Sight) -> Going
    ensures { result ≡ watch_says Still sight }
{
    match sight.before {
        Some(before) if sight.overflow >= before => Going::Stop,
        _ => Going::On,
    }
}

/// Stops where the overflow is at most the goal.
pub fn goal(sight: Sight) -> Going
    ensures { result ≡ watch_says Goal sight }
{
    if sight.overflow <= sight.goal {
        Going::Stop
    } else {
        Going::On
    }
}
