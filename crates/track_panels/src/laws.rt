//! The law of the left-edge numbering.
ghost use Rattle.track_panels.specs.Numberings.{LeftEdgeIsFewest};

/// However many pieces there are in their order, the left-edge numbering keeps those with a common tile
/// apart, by the fewest tracks. The function itself does nothing.
pub fn left_edge_is_fewest()
    ensures { LeftEdgeIsFewest }
{}
