//! Panels by way, layer and line.
use gr_base::Way;

/// A panel: a row of a layer for runs that go East, or a column of one for runs that go North. Layers,
/// rows and columns count from 0.
#[derive(Clone, Copy)]
pub(crate) struct PanelPlace {
    pub way: Way,
    pub layer: u32,
    pub line: u32,
}
