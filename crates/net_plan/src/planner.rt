//! The memory that pattern plans and maze plans are made with; what it holds between plans has no bearing on them.
ghost use Rattle.std.specs.Prelude.{◌≡◌, ◌≤◌, length, IfOk, OnOk};
ghost use Rattle.layer_assign.specs.Assignments.{tile_count};

use crate::flat::FlatRoom;
use gr_base::Shape;
use layer_assign::LayerRoom;
use maze_route::MazeRoom;
use std::alloc::{AllocError, Global};

/// What plans are made with. It serves net after net and keeps its memory, which it takes at the
/// first plan; what it holds between two plans means nothing. It also serves designs of other grids,
/// for whose pattern plans it makes its memory anew.
#[derive(Debug, Drop)]
pub struct Planner {
    pub(crate) shape: Shape,
    pub(crate) flat: FlatRoom,
    pub(crate) layers: LayerRoom,
    pub(crate) maze: MazeRoom,
    pub(crate) ghost fits: { tile_count shape ≤ length flat.joining.index },
    pub(crate) ghost layers_fit: { tile_count shape ≤ layers },
}

impl Planner {
    /// A planner that has made no plan yet: its memory is that of a grid of one cell. The only error is
    /// want of memory.
    pub fn new(alloc: Global) -> Result<Planner, AllocError> {
        let cell = Shape {
            columns: 1,
            rows: 1,
            layers: 1,
        };
        Planner::of_grid(alloc, cell)
    }

    /// A planner for designs of a grid. The only error is want of memory.
    fn of_grid(alloc: Global, shape: Shape) -> Result<Planner, AllocError>
        ensures { IfOk result (λ planner. planner.shape ≡ shape) }
    {
        Ok(Planner {
            shape,
            flat: FlatRoom::new(alloc, shape)?,
            layers: LayerRoom::new(alloc, shape)?,
            maze: MazeRoom::new(alloc),
        })
    }

    /// Makes the memory anew where it isn't that of the grid. The only error is want of memory.
    pub(crate) fn fit(&mut self, alloc: Global, shape: Shape) -> Result<(), AllocError>
        ensures { OnOk result (self.new.shape ≡ shape) }
    {
        if self.shape != shape {
            *self = Planner::of_grid(alloc, shape)?;
        }
        Ok(())
    }
}
