//! What searches keep from walk to walk.
ghost use Rattle.std.specs.Prelude.{◌≡◌, OnOk};
ghost use Rattle.gr_base.specs.Trees.{TreeView};
ghost use Rattle.maze_route.specs.Kept.{Serves};
ghost use Rattle.maze_route.specs.Windows.{IsWindow};

use crate::field::Field;
use crate::front::{Frontier, Labels};
use crate::queue::BucketQueue;
use crate::runs::RunCosts;
use crate::scales::Scales;
use crate::window::Window;
use gr_base::Shape;
use std::alloc::{AllocError, Global};

/// What walks are searched with. It serves walk after walk, and keeps its memory but that of scales and
/// bounds.
///
/// While a tree grows in a window and prices stand still, the costs of walks that one search found
/// stay those of walks, and the next goes on from them.
#[derive(Debug, Drop)]
pub struct MazeRoom {
    /// The window of the walks, with its prices.
    pub(crate) field: Field,
    pub(crate) scales: Scales,
    pub(crate) front: Frontier,
    /// The goals by their numbers in the window.
    pub(crate) ends: Vec<u32>,
    /// A mark for each goal among the window's cells.
    pub(crate) marks: Vec<bool>,
    /// The cells that wait when a search goes on.
    pub(crate) waiting: Vec<u32>,
}

impl MazeRoom {
    /// Room for walks in any windows, which takes no memory yet.
    pub fn new(alloc: Global) -> MazeRoom {
        MazeRoom {
            field: Field::new(alloc),
            scales: Scales::new(alloc),
            front: Frontier {
                labels: Labels::new(alloc),
                queue: BucketQueue::new(alloc),
            },
            ends: Vec::new(alloc),
            marks: Vec::new(alloc),
            waiting: Vec::new(alloc),
        }
    }

    /// Begins the walks to a tree that grows in a window of a grid, by what edges cost. What the room
    /// holds before doesn't matter. The only error is want of memory.
    pub fn begin<C: RunCosts>(
        &mut self,
        alloc: Global,
        costs: &C,
        grid: Shape,
        window: Window,
    ) -> Result<(), AllocError>
        requires grid { C.grid costs.now ≡ grid }
        requires window { IsWindow grid window }
        ensures { (t : TreeView) → t.shape ≡ grid → OnOk result (Serves t window (C.price costs.now) self.new) }
    {
        self.field.fill(costs, grid, window)?;
        self.scales = Scales::of(alloc, costs, &self.field)?;
        self.front.clear(self.field.pane.size())?;
        Ok(())
    }
}
