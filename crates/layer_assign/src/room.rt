//! The memory that assigning and raising share from net to net; contracts see of it only how many tiles it is for.
ghost use Rattle.std.specs.Prelude.{◌≡◌, IfOk};
ghost use Rattle.layer_assign.specs.Assignments.{tile_count};

use crate::climbs::ClimbRows;
use crate::span::{Span, Workings};
use gr_base::{NodeIndex, Shape};
use std::alloc::{AllocError, Global};
use std::marker::Model;

/// What layers are assigned and trees are raised with. It serves net after net and keeps its memory
/// from one to the next. What it holds before a call means nothing.
#[derive(Debug, Drop)]
pub struct LayerRoom {
    /// The flat tree's nodes by their tiles.
    pub(crate) index: NodeIndex,
    /// The span of each node's tile so far.
    pub(crate) spans: Vec<Option<Span>>,
    pub(crate) climbs: ClimbRows,
    /// What each node's tile and the limbs below it cost, by the span that the tile has before.
    pub(crate) least: Vec<u64>,
    /// The best layer of each node's edge, by the span that its parent's tile has before.
    pub(crate) choices: Vec<u32>,
    /// Whether an edge has joined each node's tile.
    pub(crate) joined: Vec<bool>,
    pub(crate) workings: Workings,
    /// The span of each node's tile at last.
    pub(crate) whole: Vec<Span>,
    /// How many nodes the raised tree had just after each node's tile was added, and 0 before.
    pub(crate) ends: Vec<u32>,
}

impl LayerRoom {
    /// Room for nets of a grid of this shape. The only error is want of memory.
    pub fn new(alloc: Global, shape: Shape) -> Result<LayerRoom, AllocError>
        ensures { IfOk result (λ room. room ≡ tile_count shape) }
    {
        Ok(LayerRoom {
            index: NodeIndex::new(alloc, shape.columns() * shape.rows())?,
            spans: Vec::new(alloc),
            climbs: ClimbRows::new(alloc, shape)?,
            least: Vec::new(alloc),
            choices: Vec::new(alloc),
            joined: Vec::new(alloc),
            workings: Workings::new(),
            whole: Vec::new(alloc),
            ends: Vec::new(alloc),
        })
    }
}

impl Model for LayerRoom {
    ghost use Rattle.std.specs.Prelude.{ℕ, length};

    ghost Value = { ℕ };

    ghost view = { λ room. length room.index };
}
