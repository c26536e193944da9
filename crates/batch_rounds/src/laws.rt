//! The law of batched histories.
ghost use Rattle.std.specs.Prelude.{◌≡◌, List};
ghost use Rattle.book_state.specs.declared.entry.Entry.{Entry};
ghost use Rattle.gr_base.specs.Designs.{IsDesign};
ghost use Rattle.batch_rounds.specs.BatchedHistories.{Batching, IsBatched};

/// What is asked for decides the history: a design has one batched history for each formula, number of
/// rounds and number of nets in a batch, and so one set of routes. The function itself does nothing.
pub fn there_is_one_batched_history()
    ensures { (t : Batching) → (h g : List Entry) → IsDesign t.design → IsBatched t h → IsBatched t g → g ≡ h }
{}
