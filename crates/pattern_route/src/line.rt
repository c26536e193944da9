//! The plain values that flat walks are found with: lines of tiles, spans between two tiles, crossings and sweeps.

/// The lines of tiles of one direction.
#[derive(Clone, Copy)]
pub(crate) enum Axis {
    Columns,
    Rows,
}

/// A column or a row, by its number. A place on it is a row or a column.
#[derive(Clone, Copy)]
pub(crate) struct Line {
    pub(crate) axis: Axis,
    pub(crate) at: u32,
}

/// Two tiles as the lines of one axis see them: on which line each lies, and where on it.
#[derive(Clone, Copy)]
pub(crate) struct Span {
    pub(crate) axis: Axis,
    /// The lines of the two tiles.
    pub(crate) start: u32,
    pub(crate) end: u32,
    /// Their places on those lines.
    pub(crate) from: u32,
    pub(crate) to: u32,
}

/// A line of a span that a walk crosses by, and what the walk costs.
#[derive(Clone, Copy)]
pub(crate) struct Crossing {
    pub(crate) span: Span,
    pub(crate) at: u32,
    pub(crate) cost: u64,
}

/// A line of a span, and the costs of the legs that every walk by it has: from the first tile to
/// the line, and from the line to the second tile.
#[derive(Clone, Copy)]
pub(crate) struct Sweep {
    pub(crate) span: Span,
    pub(crate) at: u32,
    pub(crate) left: u64,
    pub(crate) to_come: u64,
}
