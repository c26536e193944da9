//! The laws that loads and times can be had from the leaves.
ghost use Rattle.std.specs.Prelude.{◌≡◌, ◌+◌, ◌<◌, ℕ, None};
ghost use Rattle.elmore_delay.specs.RcTrees.{RcTree, Buffers, IsRcTree, required_time};
ghost use Rattle.elmore_delay.specs.BelowNodes.{seen_at};
ghost use Rattle.elmore_delay.specs.FromLeaves.{seen_from, seen_whole, at_driver};

/// The required time, which is defined by the delays along the paths to the sinks, is the time at
/// the driver that comes from going through the tree once, from the leaves. The function itself
/// does nothing.
pub fn required_from_leaves()
    ensures { (t : RcTree) → (b : Buffers) → IsRcTree t → b 0 ≡ None →
        required_time t b ≡ at_driver t.driver (seen_whole t b) }
{}

/// What is seen at a node, which is defined by the delays along the paths from it to the sinks below
/// it, comes from going through the later nodes once, from the leaves. The function itself does
/// nothing.
pub fn seen_from_leaves()
    ensures { (t : RcTree) → (b : Buffers) → (v : ℕ) → IsRcTree t → v < t.nodes → seen_at t b v ≡ seen_from (v + 1) t b v }
{}
