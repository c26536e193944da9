//! Boxes by positions of columns and rows.
ghost use Rattle.std.specs.Prelude.{◌≡◌};
ghost use Rattle.maze_route.specs.Spans.{with_end};

/// A box of columns and rows by their positions, on the layers up to one.
#[derive(Clone, Copy)]
pub(crate) struct Span {
    pub(crate) left: u64,
    pub(crate) right: u64,
    pub(crate) low: u64,
    pub(crate) high: u64,
    pub(crate) top: u32,
}

impl Span {
    /// The least box that holds this one and a cell at these positions on a layer.
    pub(crate) fn with(self, column: u64, row: u64, layer: u32) -> Span
        ensures { result ≡ with_end self column row layer }
    {
        Span {
            left: self.left.min(column),
            right: self.right.max(column),
            low: self.low.min(row),
            high: self.high.max(row),
            top: self.top.max(layer),
        }
    }
}
