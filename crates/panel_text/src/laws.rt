//! The law of the panels' text.
ghost use Rattle.panel_text.specs.Texts.{PanelsUseFewest};

/// In each panel of the text runs with a common tile have different tracks, of which no numbering that
/// keeps them apart uses fewer. The function itself does nothing.
pub fn panels_use_fewest_tracks()
    ensures { PanelsUseFewest }
{}
