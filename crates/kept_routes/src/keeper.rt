//! What the trees of kept nets are made with.
ghost use Rattle.std.specs.Prelude.{IfOk};
ghost use Rattle.kept_routes.specs.Keepers.{IsKeeperOf};

use gr_base::{Design, NodeIndex};
use grid_demand::Capacity;
use route_evaluator::TreeMaker;
use std::alloc::{AllocError, Global};

/// Sets of edges and cells, an index of nodes, and the design's capacity. What the sets and the index
/// hold before a net means nothing.
#[derive(Drop)]
pub(crate) struct Keeper {
    pub maker: TreeMaker,
    pub index: NodeIndex,
    pub capacity: Capacity,
}

impl Keeper {
    /// One for a design. The only error is want of memory.
    pub(crate) fn new(alloc: Global, design: &Design) -> Result<Keeper, AllocError>
        ensures { IfOk result (IsKeeperOf design.now) }
    {
        let shape = design.frame().shape;
        Ok(Keeper {
            maker: TreeMaker::new(alloc, shape)?,
            index: NodeIndex::new(alloc, shape.cells())?,
            capacity: Capacity::of(alloc, design)?,
        })
    }
}
