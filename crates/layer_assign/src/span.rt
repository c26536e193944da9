//! The plain values that layers are chosen with: spans, offers, limbs, and the workings of one node's choice.
use gr_base::{Edge, Way};

/// The layers from the least to the greatest of some: `low` is at most `high`. Of no layers there is
/// none, so that a tile's span so far is an `Option`.
#[derive(Clone, Copy, Debug, PartialEq, Eq)]
pub(crate) struct Span {
    pub(crate) low: u32,
    pub(crate) high: u32,
}

/// A layer, and what it costs to take it.
#[derive(Clone, Copy, Debug, PartialEq, Eq)]
pub(crate) struct Best {
    pub(crate) layer: u32,
    pub(crate) cost: u64,
}

/// A node's edge over the layers, and what the limb below it costs on each layer that goes its way.
#[derive(Debug, Drop)]
pub(crate) struct Limb {
    pub(crate) edge: Edge,
    pub(crate) below: [Option<u64>; 16],
}

/// What the choice of one node's layers is worked out with. It serves node after node; what it says
/// of layers past the grid's last means nothing.
#[derive(Debug, Drop)]
pub(crate) struct Workings {
    pub(crate) limb: Limb,
    /// What the limb costs on each layer, without the parent's tile.
    pub(crate) limbs: [Option<u64>; 16],
    /// For each layer the best of the layers above it.
    pub(crate) above: [Option<Best>; 16],
}

impl Workings {
    pub(crate) fn new() -> Workings {
        let edge = Edge {
            low: 0,
            way: Way::East,
        };
        let below = [None; 16];
        Workings {
            limb: Limb { edge, below },
            limbs: [None; 16],
            above: [None; 16],
        }
    }
}
