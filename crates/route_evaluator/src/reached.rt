//! What a flood leaves behind: the cells that it reached and from where, in memory that the next flood uses anew.
ghost use Rattle.std.specs.Prelude.{◌≡◌, IfOk};
ghost use Rattle.gr_base.specs.Grid.{cells_of};
ghost use Rattle.route_evaluator.specs.NumberSets.{empty_set};

use crate::number_set::NumberSet;
use gr_base::Shape;
use std::alloc::{AllocError, Global};

/// The cells that a flood reached, in its order, and for each the place in that order of the cell
/// that it was reached from. The first is reached from none, and has 0.
#[derive(Drop)]
pub(crate) struct Reached {
    pub(crate) cells: NumberSet,
    pub(crate) parents: Vec<u32>,
}

impl Reached {
    /// No cell of the grid. The only error is want of memory.
    pub(crate) fn new(alloc: Global, shape: Shape) -> Result<Reached, AllocError>
        ensures { IfOk result (λ reached. reached.cells ≡ empty_set (cells_of shape)) }
    {
        Ok(Reached {
            cells: NumberSet::new(alloc, shape.cells())?,
            parents: Vec::new(alloc),
        })
    }
}
