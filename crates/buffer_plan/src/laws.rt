//! The laws that candidates are complete and real, and that the picked placements are best.
ghost use Rattle.std.specs.Prelude.{ℕ, ◌+◌, ◌*◌, ◌<◌, ◌≤◌, length};
ghost use Rattle.elmore_delay.specs.BelowNodes.{nodes_below};
ghost use Rattle.elmore_delay.specs.Loadings.{LoadingView, IsLoading, rc_of};
ghost use Rattle.ginneken_lists.specs.Thinning.{AreRising};
ghost use Rattle.buffer_plan.specs.Best.{IsBest};
ghost use Rattle.buffer_plan.specs.CandidatesAbove.{AreCompleteWithin, AreRealWithin, seen_above_with, seen_over_edge};
ghost use Rattle.buffer_plan.specs.CandidatesBelow.{AreComplete, AreReal};
ghost use Rattle.buffer_plan.specs.Picked.{all_above, all_hanging, candidates_at, picked, sites_of};

/// The candidates at each node are complete and real over the placements of buffers below it, where
/// loads and times are those of the paths to the sinks. They rise in load and time, and are at most
/// one more than the kinds of buffers times the nodes below. The function itself does nothing.
pub fn candidates_at_nodes()
    ensures complete { (l : LoadingView) (v : ℕ) → IsLoading l → v < length l.tree.nodes → AreComplete l v (candidates_at l v) }
    ensures real { (l : LoadingView) (v : ℕ) → IsLoading l → v < length l.tree.nodes → AreReal l v (candidates_at l v) }
    ensures rising { (l : LoadingView) (v : ℕ) → v < length l.tree.nodes → AreRising (candidates_at l v) }
    ensures few { (l : LoadingView) (v : ℕ) → IsLoading l → v < length l.tree.nodes →
        length (candidates_at l v) ≤ 1 + length l.library.kinds * length (nodes_below (rc_of l) v) }
{}

/// What a node's list becomes by the offers at the node, and then along the edge to its parent: the
/// candidates above each node, and at the upper end of each edge, are complete and real over the
/// placements of buffers at the node and below it, where loads and times are those of the paths to
/// the sinks. They rise in load and time, and are at most one more than the kinds of buffers times
/// the nodes at and below the node. The function itself does nothing.
pub fn candidates_above_nodes()
    ensures complete { (l : LoadingView) (v : ℕ) → IsLoading l → v < length l.tree.nodes →
        AreCompleteWithin l v (seen_above_with l v) (all_above (sites_of l) v (candidates_at l v)) }
    ensures real { (l : LoadingView) (v : ℕ) → IsLoading l → v < length l.tree.nodes →
        AreRealWithin l v (seen_above_with l v) (all_above (sites_of l) v (candidates_at l v)) }
    ensures rising { (l : LoadingView) (v : ℕ) → v < length l.tree.nodes →
        AreRising (all_above (sites_of l) v (candidates_at l v)) }
    ensures few { (l : LoadingView) (v : ℕ) → IsLoading l → v < length l.tree.nodes →
        length (all_above (sites_of l) v (candidates_at l v))
        ≤ 1 + length l.library.kinds * (1 + length (nodes_below (rc_of l) v)) }
    ensures edge_complete { (l : LoadingView) (v : ℕ) → IsLoading l → 0 < v → v < length l.tree.nodes →
        AreCompleteWithin l v (seen_over_edge l v) (all_hanging (sites_of l) v (candidates_at l v)) }
    ensures edge_real { (l : LoadingView) (v : ℕ) → IsLoading l → 0 < v → v < length l.tree.nodes →
        AreRealWithin l v (seen_over_edge l v) (all_hanging (sites_of l) v (candidates_at l v)) }
    ensures edge_rising { (l : LoadingView) (v : ℕ) → AreRising (all_hanging (sites_of l) v (candidates_at l v)) }
    ensures edge_few { (l : LoadingView) (v : ℕ) → IsLoading l → v < length l.tree.nodes →
        length (all_hanging (sites_of l) v (candidates_at l v))
        ≤ 1 + length l.library.kinds * (1 + length (nodes_below (rc_of l) v)) }
{}

/// The placement that is picked from the candidates at the driver is allowed, and no allowed
/// placement of buffers has a greater required time, which is defined over the paths to the sinks.
/// The function itself does nothing.
pub fn picked_is_best()
    ensures { (l : LoadingView) → IsLoading l → IsBest l (picked l) }
{}
