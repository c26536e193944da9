//! The laws that candidates for each signal are complete and real, and that the picked legal placements are best.
ghost use Rattle.std.specs.Prelude.{◌≡◌, ◌+◌, ◌*◌, ◌<◌, ◌≤◌, Bool, Some, None, List, Option, length, ℕ};
ghost use Rattle.elmore_delay.specs.BelowNodes.{nodes_below};
ghost use Rattle.elmore_delay.specs.Loadings.{LoadingView, IsLoading, rc_of};
ghost use Rattle.ginneken_lists.specs.Thinning.{AreRising};
ghost use Rattle.polar_lists.specs.Polarity.{IsBestLegal, HasNoLegal};
ghost use Rattle.polar_lists.specs.Signals.{picked_legal};
ghost use Rattle.polar_lists.specs.SignalsBelow.{AreCompleteFor, AreRealFor, both_at};

/// The candidates at each node for each signal there are complete and real over the placements below it
/// with which that signal gives each sink what it wants, where signals, loads and times are those of the
/// paths to the sinks. They rise in load and time, and are at most one more than the kinds times the nodes
/// below. The function itself does nothing.
pub fn candidates_for_signals()
    ensures complete { (l : LoadingView) (v : ℕ) (inverted : Bool) → IsLoading l → v < length l.tree.nodes →
        AreCompleteFor l v inverted (both_at l v inverted) }
    ensures real { (l : LoadingView) (v : ℕ) (inverted : Bool) → IsLoading l → v < length l.tree.nodes →
        AreRealFor l v inverted (both_at l v inverted) }
    ensures rising { (l : LoadingView) (v : ℕ) (inverted : Bool) → v < length l.tree.nodes →
        AreRising (both_at l v inverted) }
    ensures few { (l : LoadingView) (v : ℕ) (inverted : Bool) → IsLoading l → v < length l.tree.nodes →
        length (both_at l v inverted) ≤ 1 + length l.library.kinds * length (nodes_below (rc_of l) v) }
{}

/// Where a placement is picked it is legal, and no legal one has a greater required time, which is
/// defined over the paths to the sinks; where none is picked none is legal. The function itself does
/// nothing.
pub fn picked_legal_is_best()
    ensures best { (l : LoadingView) (p : List (Option ℕ)) → IsLoading l → picked_legal l ≡ Some p → IsBestLegal l p }
    ensures none { (l : LoadingView) → IsLoading l → picked_legal l ≡ None → HasNoLegal l }
{}
