//! Placements of buffers in the trees of nets.
ghost use Rattle.std.specs.Prelude.{◌≡◌, ℕ, ◌<◌, length, Some, None, IfOk, is_some, count_by, replicate, slice_set};
ghost use Rattle.elmore_delay.specs.Placements.{placed_at, IsPlacement};

use std::alloc::{AllocError, Global};
use std::marker::Model;

/// Where buffers stand in a tree: by node, the number of a library's kind, or none. Node 0, which is
/// the driver's, holds none.
#[derive(Debug, Drop)]
pub struct Placement {
    kinds: Vec<Option<u32>>,
}

impl Model for Placement {
    ghost use Rattle.std.specs.Prelude.{ℕ, List, Option};

    ghost Value = { List (Option ℕ) };

    ghost use Rattle.elmore_delay.specs.Placements.{IsPlacement};

    ghost view = { λ p. p.kinds.items };

    ghost invariant = { λ p. IsPlacement p.kinds.items };
}

impl Placement {
    /// No buffers in a tree of so many nodes. The only error is want of memory.
    pub fn none(alloc: Global, nodes: u32) -> Result<Placement, AllocError>
        ensures { IfOk result (λ placement. placement ≡ replicate nodes None) }
    {
        Ok(Placement {
            kinds: vec![in alloc; None; nodes as usize]?,
        })
    }

    /// Puts a buffer of a kind at a node, or takes it away.
    pub fn set(&mut self, node: u32, kind: Option<u32>)
        requires inside { node < length self.old }
        requires later { 0 < node }
        ensures placed { self.new ≡ slice_set self.old node kind }
        ensures placement { IsPlacement self.new }
    {
        self.kinds[node as usize] = kind;
    }

    /// The kind of the buffer at a node, or none.
    pub fn at(&self, node: u32) -> Option<u32>
        requires { node < length self.now }
        ensures placed { result ≡ placed_at self.now node }
        ensures placement { IsPlacement self.now }
    {
        self.kinds[node as usize]
    }

    /// How many buffers there are.
    pub fn buffers(&self) -> u64
        ensures buffers { result ≡ count_by is_some self.now }
    {
        self.kinds.iter().filter(|kind| kind.is_some()).count() as u64
    }
}
