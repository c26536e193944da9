//! How edges are priced beside their weights.

/// What an edge costs by its length, and which edges may be used.
#[derive(Clone, Copy, Debug, PartialEq, Eq)]
pub struct Rates {
    /// What a wire edge costs without a weight.
    pub scale: u32,
    /// As how many wire edges a via edge counts.
    pub via_cost: u32,
    /// Whether usable edges alone may be used, or all.
    pub usable_only: bool,
}
