//! Pairs a function with the watch that it was shown to follow; the function sees a sight and nothing else.
ghost use Rattle.std.specs.Prelude.{◌≡◌};
ghost use Rattle.cost_rules.specs.declared.sight.Going.{Going};
ghost use Rattle.cost_rules.specs.declared.sight.Sight.{Sight};
ghost use Rattle.cost_rules.specs.Watching.{IsSight, watch_says};

use crate::sight::{Going, Sight, Watch};

/// A function that follows a watch, and which watch it follows.
#[derive(Clone, Copy)]
pub struct Watcher {
    watch: Watch,
    look: fn(Sight) -> Going,
    ghost callable: { (sight : Sight) → IsSight sight → pre look sight },
    ghost gives: { (sight : Sight) (going : Going) → IsSight sight → post look sight going →
        going ≡ watch_says watch sight },
}

impl Watcher {
    /// A watcher of the caller's: its function, and the watch that it follows on every sight.
    pub fn new(watch: Watch, look: fn(Sight) -> Going) -> Watcher
        requires callable { (sight : Sight) → IsSight sight → pre look sight }
        requires gives { (sight : Sight) (going : Going) → IsSight sight → post look sight going →
            going ≡ watch_says watch sight }
        ensures { result.watch ≡ watch }
    {
        Watcher { watch, look }
    }

    /// Whether another round is to begin.
    pub fn look(&self, sight: Sight) -> Going
        ensures { result ≡ watch_says self.now.watch sight }
    {
        (self.look)(sight)
    }

    /// The watch that the function follows.
    pub fn watch(&self) -> Watch
        ensures { result ≡ self.now.watch }
    {
        self.watch
    }
}
