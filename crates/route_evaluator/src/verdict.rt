//! What judging finds: the measures as plain numbers, and the nets whose pins aren't joined.
use gr_base::Cells;

/// The judgement of a solution, over the design's routed nets and the sets of edges that their
/// runs cover.
#[derive(Debug, Drop)]
pub struct Verdict {
    /// How many nets are routed.
    pub routed: u32,
    /// The sum of the overflow of all wire edges, in units of width.
    pub total: u128,
    /// The greatest overflow of a wire edge, or 0 where there is none, in units of width.
    pub max: u64,
    /// The number of wire edges, and the via cost for each via edge.
    pub wirelength: u128,
    /// The number of via edges.
    pub vias: u128,
    /// The numbers of the routed nets whose pins aren't joined, rising.
    pub unjoined: Cells,
}
