//! The layers that were assigned, which callers can read by nodes but neither make nor change.
ghost use Rattle.std.specs.Prelude.{◌≡◌, ◌<◌, length, slice_index};

use std::marker::Model;

/// The layer of each edge of a flat tree, by the node whose edge to its parent it is. Node 0 has no
/// edge; its layer says nothing.
#[derive(Debug, Drop)]
pub struct Layers {
    pub(crate) numbers: Vec<u32>,
}

impl Model for Layers {
    ghost use Rattle.std.specs.Prelude.{ℕ, List};

    ghost Value = { List ℕ };

    ghost view = { λ layers. layers.numbers.items };
}

impl Layers {
    /// The layer of the edge from a node to its parent.
    pub fn layer(&self, node: u32) -> u32
        requires { node < length self.now }
        ensures { result ≡ slice_index self.now node }
    {
        self.numbers[node as usize]
    }
}
