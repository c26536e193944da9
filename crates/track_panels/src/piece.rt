//! Pieces of panels.

/// A straight piece of a net's wires in a panel, which is a row or a column of tiles of one layer. It
/// covers the tiles of its two ends and all between.
#[derive(Clone, Copy, Debug, PartialEq, Eq)]
pub struct Piece {
    /// The number of the net.
    pub net: u32,
    /// The tile of its lower end.
    pub low: u32,
    /// The tile of its higher end.
    pub high: u32,
}
